// Models, with what loading works out for them, and the entity text.
// A file and its map record stay two parameters: with a struct `Bsp` of the two each clause would say `self.now.s.now` and `self.now.map` in
// the place of a parameter, since each definition takes the two; the calls for C are lent them apart, and walks take a part of the record.
#![tactic(auto)]

pub mod model;
pub mod text;
