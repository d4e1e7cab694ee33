// The texture section: its groups of frames, and the numbers that textures get.
// The file, where the section starts and how many textures it has are handed on one by one, also where a kind, an end or a table comes after
// them, and are no struct. It would be no plainer: the definitions take them one by one, so that its fields would stand in each contract where
// the parameters stand, most often three times, and in longer words.
#![tactic(auto)]

pub mod access;
pub mod earliest;
mod frame;
mod group;
pub mod load;
mod number;
mod sieve;
mod sound;
mod stem_table;
mod table;
