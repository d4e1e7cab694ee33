// Records at a place where their bytes are known to be there.
ghost use Rattle.std.specs.Prelude.{◌≡◌, ◌+◌, ◌≤◌, true, false, length};
ghost use Rattle.format.specs.Answers.{answer_of};
ghost use Rattle.nodes.specs.Fast as Fast;

use crate::bytes::{f32_at, u16_at, u32_at};
use crate::read::Words;
use format::code::contents_of;
use format::contents::BspLeafContents;
use format::refusal::{Answer, Refusal};
use math::{Hyperplane, Vector3};

// Whether the word of one of a clip node's two children is neither a node nor contents, by the two words as one number: the codes are 65536 less a
// word, 1 to 6 and 9 to 14. With the bit of 8 taken away both runs of codes are the words 65522 to 65527, and the words 32768 to 65521 are neither.
// So a word is neither where its highest bit is set and, that taken away too, 65521 less it still has that bit. (Both words at once: one branch.)
#[tactic(auto, using(crate::proofs::Clips::low_parts))]
#[inline(always)]
pub fn is_either_invalid(both: u32) -> bool
    ensures { result ≡ Fast.either_invalid both }
{
    let low = both & 0x7ff7_7ff7;
    both & (0xfff1_fff1 - low) & 0x8000_8000 != 0
}

// The words of a clip node, of a file that has the bytes at some place. (Here and below both numbers are read before any test, and the plane's
// sign is tested last: where the number of planes is tested next, as in a walk, one test does for both.)
pub fn clip_words(s: &[u8], at: usize) -> Answer<Words>
    requires { at + 8 ≤ length s.now }
    ensures { Fast.ReadsNode false s.now at result }
{
    let plane = u32_at(s, at);
    let both = u32_at(s, at + 4);
    if is_either_invalid(both) {
        return Err(Refusal::Unreadable);
    }
    if 2147483648 <= plane {
        return Err(Refusal::Unreadable);
    }
    Ok(Words { plane, both })
}

// The words of a render node, of a file that has the bytes at some place.
pub fn render_words(s: &[u8], at: usize) -> Answer<Words>
    requires { at + 24 ≤ length s.now }
    ensures { Fast.ReadsNode true s.now at result }
{
    let plane = u32_at(s, at);
    let both = u32_at(s, at + 4);
    if 32768 <= u16_at(s, at + 20) {
        return Err(Refusal::Unreadable);
    }
    if 2147483648 <= plane {
        return Err(Refusal::Unreadable);
    }
    Ok(Words { plane, both })
}

// The coordinate along the axis 0, 1 or 2.
pub fn along(p: Vector3, axis: u32) -> f32
    ensures { result ≡ Fast.along p axis }
{
    if axis == 0 {
        p.x
    } else if axis == 1 {
        p.y
    } else {
        p.z
    }
}

// The normal in a plane's twenty bytes.
pub fn normal_of(bytes: &[u8; 20]) -> Vector3
    ensures { result ≡ Fast.normal bytes.now 0 }
{
    Vector3::new(f32_at(bytes, 0), f32_at(bytes, 4), f32_at(bytes, 8))
}

// How far two points are from the plane of twenty bytes.
#[inline(always)]
pub fn dists_here(bytes: &[u8; 20], p: Vector3, q: Vector3) -> (f32, f32)
    ensures { result ≡ Fast.two_dists p q (Fast.plane_here bytes.now 0) }
{
    let dist = f32_at(bytes, 12);
    let kind = u32_at(bytes, 16);
    if kind < 3 {
        return (along(p, kind) - dist, along(q, kind) - dist);
    }
    let plane = Hyperplane::new(normal_of(bytes), dist);
    (plane.point_dist(p), plane.point_dist(q))
}

// The plane of twenty bytes: of type 0, 1 or 2 the normal is ignored. A match, since the last arm takes the normal too.
#[tactic(auto, using(crate::proofs::Planes::here_x, crate::proofs::Planes::here_y, crate::proofs::Planes::here_z, crate::proofs::Planes::here_slanted))]
#[inline(always)]
pub fn plane_here(bytes: &[u8; 20]) -> Hyperplane
    ensures { result ≡ Fast.plane_here bytes.now 0 }
{
    let dist = f32_at(bytes, 12);
    match u32_at(bytes, 16) {
        0 => Hyperplane::axis_x(dist),
        1 => Hyperplane::axis_y(dist),
        2 => Hyperplane::axis_z(dist),
        _ => Hyperplane::new(normal_of(bytes), dist),
    }
}

pub fn leaf_contents(s: &[u8], at: usize) -> Answer<BspLeafContents>
    requires { at + 28 ≤ length s.now }
    ensures { answer_of result ≡ Fast.leaf_contents_here s.now at }
{
    let code = u32_at(s, at);
    let offset = u32_at(s, at + 4);
    if code < 2147483648 {
        return Err(Refusal::Unreadable);
    }
    let contents = contents_of(code.wrapping_neg()).ok_or(Refusal::Unreadable)?;
    if 2147483648 <= offset && offset < 4294967295 {
        return Err(Refusal::Unreadable);
    }
    Ok(contents)
}
