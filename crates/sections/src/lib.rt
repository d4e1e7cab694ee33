// The sections of a BSP29 file: the version and the table of sections, their limits, and the reading of a section to its end.
#![tactic(auto)]

pub mod position;
pub mod row;
pub mod table;
