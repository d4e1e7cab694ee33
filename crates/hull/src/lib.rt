// Hulls, walks and traces: `hull`, `for_bounds`, `contents_at_point`, `find_leaf` and `trace` of bsp/mod.rs.
#![tactic(auto)]

pub mod collision;
pub mod point;
pub mod tracing;
mod whole;
