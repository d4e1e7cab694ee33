// The records of a map file: each kind read at a position of the lent file bytes, as loading does, and by its index, with the map record.
// Faces and models are in crates of their own.
// A file and its map record stay two parameters: with a struct `Bsp` of the two each clause would say `self.now.s.now` and `self.now.map` in
// the place of a parameter, since each definition takes the two; the calls for C are lent them apart, and walks take a part of the record.
// An accessor is one line over `record`: its section and its reader.
#![tactic(auto)]

pub mod access;
pub mod edge;
pub mod leaf;
pub mod node;
pub mod number;
pub mod plane;
mod point;
pub mod texinfo;
pub mod triple;
