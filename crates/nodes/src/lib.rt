// The node tables behind one face: what a walk or a trace needs of a node, of its plane and of an end, for render nodes, clip nodes and
// the six nodes of a box. The readers read by need and answer a few numbers.
// The file's bytes `s`, the tables `t` and an index or a root stand apart in each reader: the three as one struct would be made anew for each
// index, and be no plainer.
#![tactic(auto)]

mod bytes;
pub mod crossing;
mod here;
pub mod lanes;
pub mod lines;
pub mod numbered;
pub mod quick;
pub mod read;
pub mod segment;
pub mod table;
pub mod walking;
pub mod whole;
