// The reader of a point, for the boxes of leaves and render nodes.
ghost use Rattle.std.specs.Prelude.{◌≡◌};
ghost use Rattle.format.specs.Answers.{step_of};
ghost use Rattle.records.specs.Triple.{point_at};

use crate::triple::Point;
use format::field::{Read, read_i16};

// Three whole numbers, `read_i16_3`. (`read_vector` is its like for floats, and says why they are two.)
// Inlined: late in a chain of `?` the compiler takes a call for a rare one, and leaves it a call.
#[inline(always)]
#[tactic(auto, unfolding(crate::specs::Triple::point_at))]
pub fn read_point(s: &[u8], at: usize) -> Read<Point>
    ensures { step_of result ≡ point_at s.now at }
{
    let (x, p) = read_i16(s, at)?;
    let (y, q) = read_i16(s, p)?;
    let (z, next) = read_i16(s, q)?;
    Ok((Point { x, y, z }, next))
}
