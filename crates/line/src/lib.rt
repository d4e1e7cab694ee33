// Whole-line traces: a second trace, by the published rule of id Software's world.c.
#![tactic(auto)]

mod contents;
mod ground;
pub mod state;
mod through;
pub mod tracing;
