// The nodes that a walk or a trace enters, in order, written into a lent list.
#![tactic(auto)]

pub mod traced;
pub mod walked;
