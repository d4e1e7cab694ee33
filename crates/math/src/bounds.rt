// Boxes of points, and where one goes at a plane.
ghost use Rattle.std.specs.Prelude.{◌≡◌, cond};
ghost use Rattle.std.specs.Float.Ieee as Ieee;
ghost use Rattle.math.specs.Plane as Pl;
ghost use Rattle.math.specs.Box as Box;

use crate::plane::{Alignment, Hyperplane, HyperplaneSide};
use crate::vector::Vector3;

// Where a box of points goes at a plane: to one side as a whole, or to both. (No Option: to both is not to none.)
#[derive(Clone, Copy)]
pub enum BoxSide {
    One(HyperplaneSide),
    Both,
}

// The end of an interval at which the product with n is least.
fn least_end(n: f32, min: f32, max: f32) -> f32
    ensures { result ≡ cond (Ieee.lt n Pl.zero32) max min }
{
    if n < 0.0 { max } else { min }
}

// Whether these are the bounds of an interval: finite, and the least not above the greatest.
fn is_span(min: f32, max: f32) -> bool
    ensures { result ≡ Box.is_span min max }
{
    if float::num::is_finite(min) {
        if float::num::is_finite(max) {
            return min <= max;
        }
    }
    false
}

// Whether these are the bounds of a box.
pub fn is_box(mins: Vector3, maxs: Vector3) -> bool
    ensures { result ≡ Box.is_box mins maxs }
{
    if is_span(mins.x, maxs.x) {
        if is_span(mins.y, maxs.y) {
            return is_span(mins.z, maxs.z);
        }
    }
    false
}

impl Alignment {
    // The corner of a box whose distance is least. With the bounds in each other's place it is the one
    // whose distance is greatest.
    fn least_corner(self, mins: Vector3, maxs: Vector3) -> Vector3
        ensures { result ≡ Box.least_of self mins maxs }
    {
        match self {
            Alignment::Axis(a) => mins,
            Alignment::Normal(n) => Vector3 {
                x: least_end(n.x, mins.x, maxs.x),
                y: least_end(n.y, mins.y, maxs.y),
                z: least_end(n.z, mins.z, maxs.z),
            },
        }
    }
}

impl Hyperplane {
    // The side on which the distances of a box's corners all fall, or both, by the two corners whose distances are least and greatest.
    pub fn box_side(self, mins: Vector3, maxs: Vector3) -> BoxSide
        ensures { result ≡ Box.side_by_two self mins maxs }
    {
        let alignment = self.alignment;
        if self.point_dist(alignment.least_corner(mins, maxs)) >= 0.0 {
            return BoxSide::One(HyperplaneSide::Positive);
        }
        if self.point_dist(alignment.least_corner(maxs, mins)) >= 0.0 {
            return BoxSide::Both;
        }
        BoxSide::One(HyperplaneSide::Negative)
    }
}
