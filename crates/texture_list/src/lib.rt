// The list of textures in the texture section: their offsets, headers and names.
#![tactic(auto)]

pub mod answer;
pub mod kind;
mod name;
pub mod section;
