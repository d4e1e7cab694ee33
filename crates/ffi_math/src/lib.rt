// The float functions, the vectors, the planes and the traces for C and Rust to call, for comparing
// them with the Rust: each call takes and gives numbers and lists of numbers alone, so a vector or a plane travels number by number.
#![tactic(auto)]

pub mod floats;
pub mod planes;
pub mod traces;
pub mod vectors;
