// The nodes that the trace of a segment enters. The parameters stand apart as in the calls of `hull` whose nodes these are: a struct of them would be
// made for one call each time.
ghost use Rattle.std.specs.Prelude.{◌≡◌, set};
ghost use Rattle.format.specs.Answers.{answer_of};
ghost use Rattle.format.specs.Listed.{listed, into};
ghost use Rattle.phys.specs.Trace as Tr;
ghost use Rattle.walk.specs.Walk.{ended};
ghost use Rattle.walk.specs.Private.{after};
ghost use Rattle.walk.specs.Tracing as Tracing;
ghost use Rattle.walk.specs.Tracing.{recursive_trace};
ghost use Rattle.nodes.specs.Fast as Fast;
ghost use Rattle.hull.specs.Hull.{hull_table};
ghost use Rattle.entered.specs.Lists as Lists;
ghost use Rattle.entered.specs.Onward as Going;

use format::refusal::{Answer, Refusal};
use format::section::BspData;
use hull::collision::BspCollisionHull;
use hull::tracing::{join_far, stops, trace};
use math::Vector3;
use nodes::read::{Onto, Words, end_contents, is_front, plane_at};
use nodes::segment::segment_any;
use nodes::table::{Tables, tables_of};
use phys::{Trace, TraceEnd, TraceStart};

// A part of a segment: where its trace starts and ends if it lies in one leaf.
#[derive(Clone, Copy)]
struct Way {
    from: TraceStart,
    to: TraceEnd,
}

// The calls left and the nodes entered before.
#[derive(Clone, Copy)]
struct Counts {
    left: u32,
    visits: u64,
}

// Where a segment's way down comes to: the end of the leaf that all of it lies in, by its word; or a plane that it crosses, with the node's
// words, the distances of its ends, the calls left below it; and the nodes entered. (`Descent` of `hull` has the contents where this has the
// word: here the end is read by `in_leaf`, as that of a child which is an end at once. One enum for both would take the type of an end too, each
// definition of either would name it, and it would be no plainer.)
#[derive(Clone, Copy)]
enum Down {
    End(u16, u64),
    Crossing(Words, f32, f32, u32, u64),
}

// What becomes of a segment that crosses a node's plane: the part up to the crossing goes on to the near child and the part behind it to the
// far one.
#[derive(Clone, Copy)]
struct Parts {
    near: Onto,
    to_mid: Way,
    far: Onto,
    from_mid: Way,
}

// All of a segment, as a leaf has it.
fn whole_of(way: Way) -> Way
    ensures { result ≡ Going.whole_of way }
{
    let from = TraceStart::new(way.from.point, 0.0);
    let to = TraceEnd::terminal(way.to.point);
    Way { from, to }
}

// The two parts of a segment whose ends are at the distances a and b of a node's plane. Refused where the plane can't be read.
#[tactic(auto, using(crate::proofs::Steps::no_plane))]
fn parts_of(s: &[u8], t: Tables, w: Words, a: f32, b: f32, way: Way) -> Answer<Parts>
    ensures { Going.Crosses s.now t w a b way.from.point way.to.point result }
{
    let plane = plane_at(s, t, w.plane as usize)?;
    let start = way.from.point;
    let end = way.to.point;
    let ratio = a / (a - b);
    let mid = start.add(end.sub(start).scale(ratio));
    let side = plane.point_side(start);
    let far_side = plane.point_side(end);
    let from = TraceStart::new(start, 0.0);
    let to = TraceEnd::boundary(mid, ratio, plane.facing(side));
    let from_mid = TraceStart::new(mid, ratio);
    let to_end = TraceEnd::terminal(end);
    Ok(Parts {
        near: w.onto(is_front(side)),
        to_mid: Way { from, to },
        far: w.onto(is_front(far_side)),
        from_mid: Way {
            from: from_mid,
            to: to_end,
        },
    })
}

// The part of a trace that lies in one leaf, by the word of its end.
fn in_leaf(s: &[u8], t: Tables, word: u16, way: Way, visits: u64) -> Answer<(Trace, u64)>
    ensures { answer_of result ≡ after visits (ended (Fast.table s.now t) (λ c. Tr.new_trace way.from way.to c) (Fast.contents_met s.now t word)) }
{
    let contents = end_contents(s, t, word)?;
    Ok((Trace::new(way.from, way.to, contents), visits))
}

// Writes a node at its place, if the list has it.
fn write_at(list: &mut [u32], place: u64, node: u32)
    ensures { list.new ≡ set list.old place node }
{
    if place < (list.len() as u64) {
        list[place as usize] = node;
    }
}

// Down from a node as long as the segment lies on one side of each plane; each node is written into the list as it is entered, as far as
// the list goes. (`descend` of `hull` goes down the same way, without a list, and reads the contents of the end that it comes to; the word of an
// end is answered here. One function for both would be told what is done with a node and with an end.)
fn go_down(s: &[u8], t: Tables, node: usize, way: Way, c: Counts, list: &mut [u32]) -> Answer<Down>
    ensures { Going.Goes s.now t way.from.point way.to.point c.left (Going.traced_list c.visits list.old (recursive_trace (Fast.table s.now t) c.left node way.from.point way.to.point)) list.new result }
{
    let mut i = node;
    let mut left = c.left;
    let mut visits = c.visits;
    // goes by the nodes' children; the index is tested before the calls left, also where none is left, so no range of numbers fits
    loop {
        if (t.nodes.count as usize) <= i {
            return Err(Refusal::IndexOutsideTable);
        }
        if left == 0 {
            return Err(Refusal::TooDeep);
        }
        write_at(list, visits, i as u32);
        let (w, a, b) = segment_any(s, t, i, way.from.point, way.to.point)?;
        visits = visits.saturating_add(1);
        left -= 1;
        let front = a >= 0.0;
        if front != (b >= 0.0) {
            return Ok(Down::Crossing(w, a, b, left, visits));
        }
        match w.onto(front) {
            Onto::Node(n) => i = n,
            Onto::End(word) => return Ok(Down::End(word, visits)),
        }
    }
}

// The part of a trace that goes on to a child, with the calls left and the nodes entered before; the nodes that it enters are written into
// the list, as far as it goes. At most 513 calls deep: one for each of 512 nodes, and one for an end.
#[tactic(auto, using(crate::proofs::Parts::down_refused, crate::proofs::Parts::down_end))]
fn write_onward(
    s: &[u8],
    t: Tables,
    child: Onto,
    way: Way,
    left: u32,
    visits: u64,
    list: &mut [u32],
) -> Answer<(Trace, u64)>
    ensures { Going.says_with list.new result ≡ Going.traced_list visits list.old (Going.part_with s.now t left way child) }
{
    match child {
        Onto::End(word) => in_leaf(s, t, word, way, visits),
        Onto::Node(node) => match go_down(s, t, node, way, Counts { left, visits }, list)? {
            Down::End(word, v) => in_leaf(s, t, word, whole_of(way), v),
            Down::Crossing(w, a, b, below, v) => {
                let parts = parts_of(s, t, w, a, b, way)?;
                let (near, n) = write_onward(s, t, parts.near, parts.to_mid, below, v, list)?;
                if stops(near, parts.to_mid.to.point) {
                    return Ok((near, n));
                }
                let rest = write_onward(s, t, parts.far, parts.from_mid, below, n, list);
                join_far(near, rest)
            }
        },
    }
}

// The nodes that a trace enters: their number, and the nodes in order at the front of the list. Refused as `trace` is, or where the list
// is too short (22); a refusal leaves the list as it is.
#[tactic(auto, using(crate::proofs::Listing::declined, crate::proofs::Listing::too_short))]
pub fn nodes_of_trace(
    s: &[u8],
    map: BspData,
    hull: BspCollisionHull,
    start: Vector3,
    end: Vector3,
    list: &mut [u32],
) -> Answer<usize>
    ensures { listed (answer_of result) list.new ≡ into (Lists.nodes_entered (Tracing.trace (hull_table s.now map hull) hull.node_id start end)) list.old }
{
    let (_, visits) = trace(s, map, hull, start, end)?;
    if (list.len() as u64) < visits {
        return Err(Refusal::ListTooShort);
    }
    let count = visits as usize;
    let table = hull.table;
    let t = tables_of(map, table, hull.mins, hull.maxs);
    let root = Onto::Node(hull.node_id);
    let from = TraceStart::new(start, 0.0);
    let to = TraceEnd::terminal(end);
    // what it answers is what `trace` answered
    let _ = write_onward(s, t, root, Way { from, to }, 512, 0, list);
    Ok(count)
}
