// A group of points that came one way: it goes down until its points are settled or divided.
// The file's bytes, the tables and the coordinates stand as three parameters here and in `one`: in one struct, handed on by its address, spread
// points took 2% more time and points near one another 10 to 20%.
ghost use Rattle.std.specs.Prelude.{◌≡◌, ◌+◌, ◌<◌, ◌≤◌, length};
ghost use Rattle.nodes.specs.Fast as Fast;
ghost use Rattle.points.specs.Going as Going;

use crate::divide::{divide, settle};
use crate::one::{settle_one, settle_two};
use math::Hyperplane;
use nodes::lines::end_number;
use nodes::read::{Onto, Words, plane_at, read_words};
use nodes::table::Tables;

// What a group meets there: the byte that settles its points (a contents code, or 0 where they are refused), or a node and its plane.
#[derive(Clone, Copy)]
pub enum Meeting {
    Settled(u8),
    Node(Words, Hyperplane),
}

// How a group goes down: its points are settled after so many reads; or they are divided at a node, so many in front, with so many nodes
// left to enter, after so many reads.
#[derive(Clone, Copy)]
pub enum Down {
    Settled(u64),
    Divided(Words, usize, u32, u64),
}

// The byte of an end: its contents code, or 0 where it has none. (A number, since it is kept in a list.)
pub fn end_byte(s: &[u8], t: Tables, word: u16) -> u8
    ensures { Going.meeting_meets t.table (Meeting.Settled result) ≡ Going.met s.now t 0 (Onto.End word) }
{
    end_number(s, t, word) as u8
}

// The record of a node and its plane are read here, once for all points of the group.
#[tactic(auto, unfolding(ways::specs::Groups::meets))]
pub fn meet_child(s: &[u8], t: Tables, child: Onto, left: u32) -> Meeting
    ensures { Going.meeting_meets t.table result ≡ Going.met s.now t left child }
{
    match child {
        Onto::End(word) => Meeting::Settled(end_byte(s, t, word)),
        Onto::Node(node) => {
            if left == 0 {
                return Meeting::Settled(0);
            }
            if (t.nodes.count as usize) <= node {
                return Meeting::Settled(0);
            }
            let Ok(words) = read_words(s, t, node) else {
                return Meeting::Settled(0);
            };
            let Ok(plane) = plane_at(s, t, words.plane as usize) else {
                return Meeting::Settled(0);
            };
            Meeting::Node(words, plane)
        }
    }
}

// Down from a child to where the points are settled or divided. A `for` over the nodes left would need an answer after its end.
// The child and the nodes left are no struct: each turn makes both anew, and it would be taken apart there.
// It has more than 40 lines, since its parameters take ten: a part of it would have as many, and a contract as long.
#[tactic(auto, using(crate::proofs::Downward::gone_none))]
fn go_down(
    s: &[u8],
    t: Tables,
    coords: &[f32],
    child: Onto,
    left: u32,
    ids: &mut [u16],
    aside: &mut [u16],
    out: &mut [u8],
) -> Down
    requires { (0 < length ids.old) × (length ids.old ≤ length aside.old) }
    ensures { Going.Went s.now t coords.now left (Fast.onto_child t.table child) ids.old out.old result ids.new out.new }
{
    if ids.len() == 1 {
        return Down::Settled(settle_one(s, t, coords, child, left, ids, out));
    }
    let mut at = child;
    let mut more = left;
    let mut reads: u64 = 0;
    loop {
        match meet_child(s, t, at, more) {
            Meeting::Settled(byte) => {
                settle(ids, byte, out);
                return Down::Settled(reads);
            }
            Meeting::Node(words, plane) => {
                let front = divide(coords, plane, ids, aside);
                more -= 1;
                reads += 1;
                if front == 0 {
                    at = words.onto(false);
                } else if front < ids.len() {
                    if ids.len() == 2 {
                        let n = settle_two(s, t, coords, words, more, ids, out);
                        return Down::Settled(reads + n);
                    }
                    return Down::Divided(words, front, more, reads);
                } else {
                    at = words.onto(true);
                }
            }
        }
    }
}

// Where a group that stands from `lo` to `hi` is divided: the part with fewer points and its child, and the other part.
#[derive(Clone, Copy)]
pub struct Parts {
    pub fewer: Onto,
    pub from: usize,
    pub to: usize,
    pub more: Onto,
    pub lo: usize,
    pub hi: usize,
}

#[tactic(auto, unfolding(crate::specs::Going::parts_of))]
fn parts_of(words: Words, lo: usize, front: usize, hi: usize) -> Parts
    requires { lo + front ≤ hi }
    ensures { result ≡ Going.parts_of words lo front hi }
{
    let mid = lo + front;
    if front <= hi - mid {
        return Parts {
            fewer: words.onto(true),
            from: lo,
            to: mid,
            more: words.onto(false),
            lo: mid,
            hi,
        };
    }
    Parts {
        fewer: words.onto(false),
        from: mid,
        to: hi,
        more: words.onto(true),
        lo,
        hi: mid,
    }
}

// The points of a group, all the way down; how often a node was read. Where they are divided, this calls itself for the part with fewer
// points and goes on with the other until that is settled, so it calls itself at most ten deep for 1,024 points. No `for`: how often it goes on
// is known only where a group is settled.
#[tactic(auto, using(crate::proofs::Halving::doing_none))]
pub fn settle_group(
    s: &[u8],
    t: Tables,
    coords: &[f32],
    child: Onto,
    left: u32,
    ids: &mut [u16],
    aside: &mut [u16],
    out: &mut [u8],
) -> u64
    requires { (0 < length ids.old) × ((length ids.old ≤ length aside.old) × (length aside.old ≤ 1024)) }
    ensures { Going.Settles s.now t coords.now left (Fast.onto_child t.table child) ids.old out.old result out.new }
{
    let mut at = child;
    let mut more = left;
    let mut reads: u64 = 0;
    let mut lo: usize = 0;
    let mut hi = ids.len();
    loop {
        match go_down(s, t, coords, at, more, &mut ids[lo..hi], aside, out) {
            Down::Settled(n) => return reads + n,
            Down::Divided(words, front, j, n) => {
                let p = parts_of(words, lo, front, hi);
                let from = p.from;
                let to = p.to;
                let fewer = p.fewer;
                let m = settle_group(s, t, coords, fewer, j, &mut ids[from..to], aside, out);
                reads = reads + n + m;
                more = j;
                at = p.more;
                lo = p.lo;
                hi = p.hi;
            }
        }
    }
}
