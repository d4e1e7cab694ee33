// The body sizes that a hall brings in a file of its own.
#![tactic(auto)]

ghost use Rattle.std.specs.Prelude.{◌≡◌, ◌+◌, ◌≤◌, length};
ghost use Rattle.format.specs.Answers.{answer_of};
ghost use Rattle.sizes.specs.Sizes as Sizes;

use format::refusal::{Answer, Refusal};
use math::Vector3;

// How far a body reaches from its middle.
#[derive(Clone, Copy)]
pub struct Bounds {
    pub mins: Vector3,
    pub maxs: Vector3,
}

// The bodies that hulls 1 and 2 were made for.
#[derive(Clone, Copy)]
pub struct BodySizes {
    pub hull_1: Bounds,
    pub hull_2: Bounds,
}

// Whether a field with this tag and a length of 24 starts at a place.
fn starts_field(s: &[u8], at: usize, tag: u8) -> bool
    requires { at + 3 ≤ length s.now }
    ensures { result ≡ Sizes.starts_field s.now at tag }
{
    s[at] == tag && s[at + 1] == 24 && s[at + 2] == 0
}

// The float of the four bytes at a place. (The need is that of the four indices; as a `&[u8; 4]` the caller would have it for the slice.)
fn float_in(s: &[u8], at: usize) -> f32
    requires { at + 4 ≤ length s.now }
    ensures { result ≡ Sizes.float_in s.now at }
{
    float::num::from_bits(u32::from_le_bytes([s[at], s[at + 1], s[at + 2], s[at + 3]]))
}

// (`vector_in` and `bounds_in` read the fields of a record at fixed places, as others do of other records: one function for them would take
// a reader and a constructor, and be no plainer.)
fn vector_in(s: &[u8], at: usize) -> Vector3
    requires { at + 12 ≤ length s.now }
    ensures { result ≡ Sizes.vector_in s.now at }
{
    Vector3 {
        x: float_in(s, at),
        y: float_in(s, at + 4),
        z: float_in(s, at + 8),
    }
}

fn bounds_in(s: &[u8], at: usize) -> Bounds
    requires { at + 24 ≤ length s.now }
    ensures { result ≡ Sizes.bounds_in s.now at }
{
    Bounds {
        mins: vector_in(s, at),
        maxs: vector_in(s, at + 12),
    }
}

// Whether both are finite and the minimum is below the maximum.
fn is_span(min: f32, max: f32) -> bool
    ensures { result ≡ Sizes.is_span min max }
{
    float::num::is_finite(min) && float::num::is_finite(max) && min < max
}

fn is_body(bounds: Bounds) -> bool
    ensures { result ≡ Sizes.is_body bounds }
{
    let mins = bounds.mins;
    let maxs = bounds.maxs;
    is_span(mins.x, maxs.x) && is_span(mins.y, maxs.y) && is_span(mins.z, maxs.z)
}

// The sizes, if both are bodies.
fn judge(sizes: BodySizes) -> Answer<BodySizes>
    ensures { answer_of result ≡ Sizes.judged sizes }
{
    if is_body(sizes.hull_1) && is_body(sizes.hull_2) {
        Ok(sizes)
    } else {
        Err(Refusal::NotABody)
    }
}

// The sizes with hull 1's value at one place and hull 2's at another.
fn sizes_in(s: &[u8], one: usize, two: usize) -> Answer<BodySizes>
    requires { (one + 24 ≤ length s.now) × (two + 24 ≤ length s.now) }
    ensures { answer_of result ≡ Sizes.judged (Sizes.sizes_in s.now one two) }
{
    judge(BodySizes {
        hull_1: bounds_in(s, one),
        hull_2: bounds_in(s, two),
    })
}

// The sizes of a file. 26: a field cut short, a wrong length, an unknown, missing or repeated tag; then 27: a bound not finite or a
// minimum at or above its maximum. Only two layouts of 54 bytes have no 26.
#[tactic(auto, using(crate::proofs::Rows::parsed))]
pub fn parse(s: &[u8]) -> Answer<BodySizes>
    ensures { answer_of result ≡ Sizes.sizes_of s.now }
{
    if s.len() != 54 {
        return Err(Refusal::InvalidSizesFile);
    }
    if starts_field(s, 0, 1) && starts_field(s, 27, 2) {
        return sizes_in(s, 3, 30);
    }
    if starts_field(s, 0, 2) && starts_field(s, 27, 1) {
        return sizes_in(s, 30, 3);
    }
    Err(Refusal::InvalidSizesFile)
}
