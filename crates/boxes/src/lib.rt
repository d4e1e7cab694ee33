// The contents that a box of points meets in a node table, for one who is known only to be within the box.
// The file, its map record and the hull stand apart as in `hull`.
#![tactic(auto)]

ghost use Rattle.std.specs.Prelude.{◌≡◌, true};
ghost use Rattle.format.specs.Answers.{answer_of};
ghost use Rattle.math.specs.Box as Box;
ghost use Rattle.walk.specs.TreeCheck as Walk;
ghost use Rattle.walk.specs.BoxWalk as BoxWalk;
ghost use Rattle.nodes.specs.Fast as Fast;
ghost use Rattle.hull.specs.Hull as Hull;
ghost use Rattle.boxes.specs.Sets as Sets;

use format::contents::BspLeafContents;
use format::refusal::{Answer, Refusal};
use format::section::BspData;
use hull::collision::BspCollisionHull;
use math::{BoxSide, Vector3, is_box};
use nodes::read::{end_contents, is_front, plane_at, read_words};
use nodes::table::{Tables, tables_of};
use tree::tree_check;

// The set that holds one kind of contents: bit n stands for the code n.
fn only(contents: BspLeafContents) -> u32
    ensures { result ≡ BoxWalk.only_of contents }
{
    1 << contents.code()
}

// A node with so many levels left, itself included: its index (30), too deep (32), its record (23), its plane's number (30), its plane (23),
// then the side that the box falls on, or the front side and then the back side. (`check_node` and `check_child` of `tree` go the same way, with
// marks; one function for both would be told what is done with a node. The shared laws are those of a tree's shape.)
#[cycle(box_child_box_node)]
fn box_node(s: &[u8], t: Tables, lo: Vector3, hi: Vector3, node: usize, levels: u32) -> Answer<u32>
    requires { Box.is_box lo hi ≡ true }
    ensures { answer_of result ≡ BoxWalk.box_walk (Fast.table s.now t) lo hi levels node }
{
    if (t.nodes.count as usize) <= node {
        return Err(Refusal::IndexOutsideTable);
    }
    if levels == 0 {
        return Err(Refusal::TooDeep);
    }
    let words = read_words(s, t, node)?;
    let plane = plane_at(s, t, words.plane as usize)?;
    match plane.box_side(lo, hi) {
        BoxSide::One(side) => { box_child(s, t, lo, hi, words.on(is_front(side)), levels - 1) }
        BoxSide::Both => {
            let front = box_child(s, t, lo, hi, words.on(true), levels - 1)?;
            let back = box_child(s, t, lo, hi, words.on(false), levels - 1)?;
            Ok(front | back)
        }
    }
}

// A child, by its word, with so many levels left below its parent.
#[cycle(box_child_box_node)]
fn box_child(s: &[u8], t: Tables, lo: Vector3, hi: Vector3, word: u16, levels: u32) -> Answer<u32>
    requires { Box.is_box lo hi ≡ true }
    ensures { answer_of result ≡ Sets.box_word (Fast.table s.now t) t.table lo hi levels word }
{
    if word < 32768 {
        return box_node(s, t, lo, hi, word as usize, levels);
    }
    Ok(only(end_contents(s, t, word)?))
}

// The contents that the box meets in a hull: the bounds (28, and the marks stay as they were), then the tree check of the hull's root with one lent
// mark for each node, then the set.
#[tactic(auto, using(crate::proofs::Laws::not_a_box))]
pub fn contents_in_box(
    file: &[u8],
    map: BspData,
    hull: BspCollisionHull,
    mins: Vector3,
    maxs: Vector3,
    marks: &mut [u8],
) -> Answer<u32>
    ensures { Walk.checked (answer_of result) marks.new ≡ BoxWalk.box_contents (Hull.hull_table file.now map hull) mins maxs marks.old hull.node_id }
{
    if !is_box(mins, maxs) {
        return Err(Refusal::NotABox);
    }
    tree_check(file, map, hull.table, hull.node_id, marks)?;
    let t = tables_of(map, hull.table, hull.mins, hull.maxs);
    box_node(file, t, mins, maxs, hull.node_id, 512)
}
