// What a line goes through.
ghost use Rattle.nodes.specs.Walks as Walks;

use math::Vector3;
use nodes::table::Tables;

// The file's bytes, those of the nodes and the planes as `node_bytes` and `plane_bytes` of `nodes` give them, the root, the tables, where the
// line starts and ends, and whether the file has all of their nodes and planes.
// The two lists and the flag are no `Option<Sections>`: with a `Sections` in the struct a line takes 1 to 3% more time.
#[derive(Clone, Copy)]
pub struct Ground<'a> {
    pub s: &'a [u8],
    pub nodes: &'a [u8],
    pub planes: &'a [u8],
    pub root: usize,
    pub t: Tables,
    pub start: Vector3,
    pub end: Vector3,
    pub whole: bool,
    pub ghost lent: { Walks.Read s.now t nodes.now planes.now whole },
}
