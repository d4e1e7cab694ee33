// The nodes that the walk of a point enters: to the contents at it, and to the leaf that it is in. The parameters stand apart as in the calls of
// `hull` whose nodes these are: a struct of them would be made for one call each time.
ghost use Rattle.std.specs.Prelude.{◌≡◌, ◌<◌, length};
ghost use Rattle.format.specs.Answers.{answer_of};
ghost use Rattle.format.specs.Listed.{listed, into};
ghost use Rattle.walk.specs.Walk.{point_walk};
ghost use Rattle.nodes.specs.Tables.{leaf_table};
ghost use Rattle.nodes.specs.Fast as Fast;
ghost use Rattle.hull.specs.Hull.{hull_table};
ghost use Rattle.entered.specs.Lists as Lists;
ghost use Rattle.entered.specs.Private as Private;

use format::refusal::{Answer, Refusal};
use format::section::BspData;
use hull::collision::BspCollisionHull;
use hull::point::{contents_at_point, find_leaf_from};
use math::Vector3;
use nodes::read::{read_words, side_at};
use nodes::table::{HullTable, Tables, tables_of};

// The node that a walk goes on to; 0 where it does not. (No Option: the list has one place for each visit, so the 0 after the last node is not
// written.)
fn next_node(s: &[u8], t: Tables, node: usize, point: Vector3) -> u16
    ensures { result ≡ Private.next (Fast.table s.now t) point node }
{
    let Ok(w) = read_words(s, t, node) else {
        return 0;
    };
    let Ok(front) = side_at(s, t, w.plane as usize, point) else {
        return 0;
    };
    let word = w.on(front);
    if word < 32768 { word } else { 0 }
}

// Fills the list with the nodes that a walk goes on to, one after the other.
#[tactic(auto, using(crate::proofs::Trails::starts, crate::proofs::Trails::ends))]
fn write_walk(s: &[u8], t: Tables, root: usize, point: Vector3, list: &mut [u32])
    requires { root < 4294967296 }
    ensures { list.new ≡ Private.trail (Fast.table s.now t) point (length list.old) root }
{
    let mut node = root;
    for slot in list.iter_mut() {
        *slot = node as u32;
        node = next_node(s, t, node, point) as usize;
    }
}

// The nodes of a walk of so many visits: 30 where the root is outside its table, 22 where the list is too short.
fn list_walk(
    s: &[u8],
    t: Tables,
    root: usize,
    point: Vector3,
    visits: u64,
    list: &mut [u32],
) -> Answer<usize>
    ensures { listed (answer_of result) list.new ≡ into (Private.trail_from (Fast.table s.now t) point visits root) list.old }
{
    let nodes = t.nodes;
    if (nodes.count as usize) <= root {
        return Err(Refusal::IndexOutsideTable);
    }
    if (list.len() as u64) < visits {
        return Err(Refusal::ListTooShort);
    }
    let count = visits as usize;
    write_walk(s, t, root, point, &mut list[..count]);
    Ok(count)
}

// The nodes that the walk to the contents at a point enters: their number, and the nodes in order at the front of the list. Refused as
// `contents_at_point` is, or where the list is too short (22); a refusal leaves the list as it is.
#[tactic(auto, using(crate::proofs::Listing::declined))]
pub fn nodes_to_point(
    s: &[u8],
    map: BspData,
    hull: BspCollisionHull,
    point: Vector3,
    list: &mut [u32],
) -> Answer<usize>
    ensures { listed (answer_of result) list.new ≡ into (Lists.nodes_entered (point_walk (hull_table s.now map hull) hull.node_id point)) list.old }
{
    let (_, visits) = contents_at_point(s, map, hull, point)?;
    let table = hull.table;
    let t = tables_of(map, table, hull.mins, hull.maxs);
    list_walk(s, t, hull.node_id, point, visits, list)
}

// The same for the walk to the leaf that a point is in, from a render node on, refused as `find_leaf_from` is.
#[tactic(auto, using(crate::proofs::Listing::declined, crate::proofs::Trails::leaf_listed))]
pub fn nodes_to_leaf(
    s: &[u8],
    map: BspData,
    root: usize,
    point: Vector3,
    list: &mut [u32],
) -> Answer<usize>
    ensures { listed (answer_of result) list.new ≡ into (Lists.nodes_entered (point_walk (leaf_table s.now map) root point)) list.old }
{
    let (_, visits) = find_leaf_from(s, map, root, point)?;
    let t = tables_of(map, HullTable::Render, point, point);
    list_walk(s, t, root, point, visits, list)
}
