// What a trace needs where a segment crosses a plane and where it comes to an end, from the bytes of planes and leaves; and whether a file
// has all nodes, planes and leaves.
ghost use Rattle.std.specs.Prelude.{◌≡◌};
ghost use Rattle.format.specs.Answer.{mapped};
ghost use Rattle.format.specs.Answers.{answer_of};
ghost use Rattle.nodes.specs.Fast as Fast;
ghost use Rattle.nodes.specs.Owned as Owned;

use crate::bytes::{f32_at, plane_bytes_at, u32_at};
use crate::here::{along, leaf_contents, normal_of};
use crate::read::is_front;
use crate::table::Tables;
use crate::whole::{are_whole, bytes_of, is_whole};
use format::code::contents_of;
use format::contents::BspLeafContents;
use format::refusal::{Answer, Refusal};
use math::{Hyperplane, Vector3};

// On which sides of a plane two points lie.
fn sides_here(bytes: &[u8; 20], p: Vector3, q: Vector3) -> (bool, bool)
    ensures { Owned.sides_of result ≡ Owned.two_sides p q (Fast.plane_here bytes.now 0) }
{
    let dist = f32_at(bytes, 12);
    let kind = u32_at(bytes, 16);
    if kind < 3 {
        return (along(p, kind) >= dist, along(q, kind) >= dist);
    }
    let plane = Hyperplane::new(normal_of(bytes), dist);
    (is_front(plane.point_side(p)), is_front(plane.point_side(q)))
}

// On which sides of the plane of a number. 30: there is no such plane.
#[tactic(auto, using(crate::proofs::Numbering::outside_30, crate::proofs::Numbering::there))]
pub fn sides_in(planes: &[u8], number: u32, p: Vector3, q: Vector3) -> Answer<(bool, bool)>
    ensures { Owned.sides_answer result ≡ mapped (Owned.two_sides p q) (Owned.plane_of planes.now number) }
{
    let index = number as usize;
    if planes.len() / 20 <= index {
        return Err(Refusal::IndexOutsideTable);
    }
    Ok(sides_here(plane_bytes_at(planes, index * 20), p, q))
}

// The contents at an end, by the bytes of the leaves, when it is met: 30, then 23; a word that is no contents is 23. (`end_contents` says the
// same of any file and table, whether their bytes are there or not.)
#[tactic(auto, unfolding(crate::specs::Owned::end_among, format::specs::Answers::answer_of))]
pub fn end_in(leaves: &[u8], render: bool, word: u16) -> Answer<BspLeafContents>
    ensures { answer_of result ≡ Owned.end_among render leaves.now word }
{
    if render {
        let leaf = (65535 - word) as usize;
        if leaves.len() / 28 <= leaf {
            return Err(Refusal::IndexOutsideTable);
        }
        return leaf_contents(leaves, leaf * 28);
    }
    contents_of(65536 - (word as u32)).ok_or(Refusal::Unreadable)
}

// Whether a file of `len` bytes has all nodes, planes and leaves.
pub fn all_whole(t: Tables, len: usize) -> bool
    ensures { result ≡ Owned.all_whole t len }
{
    if are_whole(t, len) {
        return is_whole(t.leaves, 28, len);
    }
    false
}

// The leaves' bytes, where the file has all of them, else none.
pub fn leaf_bytes(s: &[u8], t: Tables) -> &[u8]
    ensures { result.now ≡ Owned.leaf_bytes s.now t }
{
    bytes_of(s, t.leaves, 28, true)
}
