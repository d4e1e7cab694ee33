// What the map code of the Rust uses of `f32`: minimum, maximum, floor, ceiling, the casts, the bit
// patterns and the square root, in the words of `specs/`. Each has a result for every operand.
#![tactic(auto)]

pub mod num;
pub mod root;
