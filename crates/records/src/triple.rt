// Three fields in a row: a vector of floats, and a point of whole numbers.
ghost use Rattle.std.specs.Prelude.{◌≡◌};
ghost use Rattle.format.specs.Answers.{step_of};
ghost use Rattle.records.specs.Triple.{vector_at};

use format::field::{Read, read_f32};
use math::Vector3;

// Three floats, `read_f32_3`. `read_point` is its like for whole numbers: one function for both, which is told the field's reader and how three of
// them are put together, would be no plainer.
#[tactic(auto, unfolding(crate::specs::Triple::vector_at))]
pub fn read_vector(s: &[u8], at: usize) -> Read<Vector3>
    ensures { step_of result ≡ vector_at s.now at }
{
    let (x, p) = read_f32(s, at)?;
    let (y, q) = read_f32(s, p)?;
    let (z, next) = read_f32(s, q)?;
    Ok((Vector3 { x, y, z }, next))
}

// The Rust's `[i16; 3]`.
#[derive(Clone, Copy)]
pub struct Point {
    pub x: i16,
    pub y: i16,
    pub z: i16,
}
