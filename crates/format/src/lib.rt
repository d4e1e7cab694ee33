// The layout of a BSP29 file: its refusals, the contents codes of its leaves, its little-endian fields, its sections and the map record.
#![tactic(auto)]

pub mod code;
pub mod contents;
pub mod field;
pub mod list;
pub mod reader;
pub mod refusal;
pub mod section;
