// Vectors of three f32, planes in space and boxes of points.
#![tactic(auto)]

pub mod bounds;
pub mod plane;
pub mod vector;

pub use bounds::{BoxSide, is_box};
pub use plane::{Alignment, Hyperplane, HyperplaneSide, LinePlaneIntersect, PointIntersection};
pub use vector::{Axis, Vector3};
