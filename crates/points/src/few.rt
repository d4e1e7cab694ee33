// At most 64 points: a group is a number, in which each point has the bit of its own number. Nothing is moved where the group is divided, and where
// it has none but the first eight points their sides are found without a loop over them.
ghost use Rattle.std.specs.Prelude.{◌≡◌, ◌<◌, ◌≤◌, ℕ, Bool, true, List, [], ◌∷◌, length};
ghost use Rattle.nodes.specs.Fast as Fast;
ghost use Rattle.nodes.specs.Walks as Walks;
ghost use Rattle.ways.specs.Groups.{fill, in_front};
ghost use Rattle.points.specs.Going as Going;

use crate::divide::{axis_number, copy_apart, in_front, point_at, put, reaches};
use crate::group::end_byte;
use crate::one::{settle_each, settle_one};
use math::{Alignment, Hyperplane};
use nodes::lanes::{plane_of, sides, two_sides};
use nodes::read::{Onto, Words};
use nodes::table::Tables;
use nodes::whole::{Sections, node_bytes, plane_bytes};

// So many points, from the first on.
#[tactic(auto, using(crate::proofs::Bits::all_members))]
pub fn all(count: usize) -> u64
    requires { (0 < count) × (count ≤ 64) }
    ensures some { 0 < result }
    ensures members { Going.members result ≡ Going.from 0 count }
{
    let last = 1u64 << (count - 1);
    last + (last - 1)
}

// The points of a group for which a test holds. The side is no branch.
fn chosen_by<F: Fn(u16) -> bool>(ids: u64, goes_front: F) -> u64
    requires { F.IsAlwaysCallable goes_front }
    ensures { (f : ℕ → Bool) → Going.Tests (F.post goes_front) f → result ≡ Going.chosen f ids }
{
    let mut front = 0;
    let mut rest = ids;
    while rest != 0 {
        let id = rest.trailing_zeros();
        front += (goes_front(id as u16) as u64) << id;
        rest &= rest - 1;
    }
    front
}

// The points of a group in front of a plane, one after the other. (A call: in line it takes the registers of the group.)
#[inline(never)]
fn fronts_of(coords: &[f32], plane: Hyperplane, ids: u64) -> u64
    ensures { result ≡ Going.chosen (in_front (Going.point_at coords.now) plane) ids }
{
    match plane.alignment {
        Alignment::Axis(a) => {
            let axis = axis_number(a);
            chosen_by(ids, |id| reaches(coords, axis, plane.dist, id))
        }
        Alignment::Normal(_) => chosen_by(ids, |id| in_front(coords, plane, id)),
    }
}

// The same byte for each point of a group.
fn settle_all(ids: u64, byte: u8, out: &mut [u8])
    ensures { out.new ≡ fill (λ q. byte) (Going.members ids) out.old }
{
    let mut rest = ids;
    while rest != 0 {
        put(out, rest.trailing_zeros() as u16, byte);
        rest &= rest - 1;
    }
}

// The first point of a group.
fn first(ids: u64) -> u16
    requires { 0 < ids }
    ensures { result ≡ Going.first ids }
{
    ids.trailing_zeros() as u16
}

// Whether a group has one point.
fn is_one(ids: u64) -> bool
    requires { 0 < ids }
    ensures { result ≡ true → Going.members ids ≡ Going.first ids ∷ [] }
{
    ids & (ids - 1) == 0
}

// The second point of a group.
fn second(ids: u64) -> u16
    requires { 0 < ids }
    ensures { result ≡ Going.second ids }
{
    (ids & (ids - 1)).trailing_zeros() as u16
}

// Whether a group has two points.
fn is_two(ids: u64) -> bool
    requires { 0 < ids }
    ensures { result ≡ true → Going.members ids ≡ Going.first ids ∷ Going.second ids ∷ [] }
{
    let rest = ids & (ids - 1);
    if rest == 0 {
        return false;
    }
    rest & (rest - 1) == 0
}

// The first eight points, with NaNs in the place of those that are not there.
#[inline(always)]
pub fn first_eight(coords: &[f32]) -> [f32; 24]
    ensures { Going.Eight coords.now result }
{
    let count = coords.len();
    let mut all = [f32::NAN; 24];
    if 24 <= count {
        all[..24].copy_from_slice(&coords[..24]);
        return all;
    }
    copy_apart(coords, &mut all[..count]);
    all
}

// What a group goes by: the file, its tables, the nodes' and the planes' own bytes, the coordinates, and the first eight points of them. Lent, as the
// file has all nodes and planes.
#[derive(Clone, Copy)]
pub struct Given<'a> {
    pub s: &'a [u8],
    pub t: Tables,
    pub sections: Sections<'a>,
    pub coords: &'a [f32],
    pub eight: &'a [f32; 24],
}

#[inline(always)]
pub fn lent<'a>(
    s: &'a [u8],
    t: Tables,
    coords: &'a [f32],
    eight: &'a [f32; 24],
    whole: bool,
) -> Given<'a>
    requires { (whole ≡ true) × ((whole ≡ Walks.are_whole t (length s.now)) × Going.Eight coords.now eight.now) }
    ensures { Going.Whole result × ((result.s.now ≡ s.now) × ((result.t ≡ t) × (result.coords.now ≡ coords.now))) }
{
    let table = t.table;
    Given {
        s,
        t,
        sections: Sections {
            nodes: node_bytes(s, t, whole),
            planes: plane_bytes(s, t, whole),
            render: table.is_render(),
        },
        coords,
        eight,
    }
}

// What a group meets there: the byte that settles its points, or a node and the bytes of its plane. (As `Meeting` of `group`, of a plane that is not
// made: the sides of the first eight points are found by its bytes.)
#[derive(Clone, Copy)]
pub enum Met<'a> {
    Settled(u8),
    Node(Words, &'a [u8; 20]),
}

// What a group meets at a child, with so many nodes left to enter. (As `meet_child`, by the sections' own bytes, and in line.)
#[tactic(auto, unfolding(ways::specs::Groups::meets))]
#[inline(always)]
fn meet<'a>(g: &Given<'a>, child: Onto, left: u32) -> Met<'a>
    requires { Going.Whole g.now }
    ensures { Going.met_meets g.now.t.table result ≡ Going.met g.now.s.now g.now.t left child }
{
    let t = g.t;
    match child {
        Onto::End(word) => Met::Settled(end_byte(g.s, t, word)),
        Onto::Node(node) => {
            if left == 0 {
                return Met::Settled(0);
            }
            let part = t.nodes;
            if (part.count as usize) <= node {
                return Met::Settled(0);
            }
            match g.sections.found_in(node) {
                Err(_) => Met::Settled(0),
                Ok((words, plane)) => Met::Node(words, plane),
            }
        }
    }
}

// The points of a group in front of the plane of twenty bytes.
#[inline(always)]
fn fronts(g: &Given, plane: &[u8; 20], ids: u64) -> u64
    requires { Going.Whole g.now }
    ensures { result ≡ Going.chosen (in_front (Going.point_at g.now.coords.now) (Fast.plane_here plane.now 0)) ids }
{
    if ids < 256 {
        return sides(plane, g.eight) & ids;
    }
    fronts_of(g.coords, plane_of(plane), ids)
}

// A group of one point, all the way down: by a walk over the sections' own bytes, where that comes to an end within what is left. How often a node
// was read. (A call, as `settle_both`: in line both take the registers of the group.)
#[inline(never)]
fn settle_alone(g: &Given, child: Onto, left: u32, id: u16, out: &mut [u8]) -> u64
    requires { Going.Whole g.now }
    ensures { Going.Settles g.now.s.now g.now.t g.now.coords.now left (Fast.onto_child g.now.t.table child) (id ∷ []) out.old result out.new }
{
    if let Onto::Node(node) = child {
        let p = point_at(g.coords, id);
        let end = g.sections.walk_on(node, p.x, p.y, p.z);
        let visits = end % 4294967296;
        if 0 < end && visits <= (left as u64) {
            put(out, id, end_byte(g.s, g.t, (end / 4294967296) as u16));
            return visits;
        }
    }
    settle_one(g.s, g.t, g.coords, child, left, &[id], out)
}

// Two points that are divided at a node, each from there on, side by side: the first in front, the second behind.
#[inline(never)]
fn settle_both(
    g: &Given,
    words: Words,
    left: u32,
    first: u16,
    second: u16,
    one: &[f32; 3],
    other: &[f32; 3],
    out: &mut [u8],
) -> u64
    requires { Going.Whole g.now × ((Fast.point_of one.now ≡ Going.point_at g.now.coords.now first) × (Fast.point_of other.now ≡ Going.point_at g.now.coords.now second)) }
    ensures { Going.TwoSettled g.now.s.now g.now.t g.now.coords.now left words (first ∷ second ∷ []) out.old result out.new }
{
    let count = g.t.nodes.count;
    match g
        .sections
        .walk_two(count, words.on(true), words.on(false), one, other)
    {
        Some((a, b)) if a.visits <= left && b.visits <= left => {
            put(out, first, end_byte(g.s, g.t, a.word));
            put(out, second, end_byte(g.s, g.t, b.word));
            (a.visits as u64) + (b.visits as u64)
        }
        _ => settle_each(g.s, g.t, g.coords, words, left, first, second, out),
    }
}

// A group of two points, together until they are divided, and then side by side: the sides are those of two points, and not of eight. How often a
// node was read.
#[tactic(auto, using(crate::proofs::Pairs::together_none))]
#[inline(never)]
fn settle_pair(g: &Given, child: Onto, left: u32, first: u16, second: u16, out: &mut [u8]) -> u64
    requires { Going.Whole g.now }
    ensures { Going.Settles g.now.s.now g.now.t g.now.coords.now left (Fast.onto_child g.now.t.table child) (first ∷ second ∷ []) out.old result out.new }
{
    let p = point_at(g.coords, first);
    let q = point_at(g.coords, second);
    let one = [p.x, p.y, p.z];
    let other = [q.x, q.y, q.z];
    let mut at = child;
    let mut more = left;
    let mut reads: u64 = 0;
    loop {
        match meet(g, at, more) {
            Met::Settled(byte) => {
                put(out, first, byte);
                put(out, second, byte);
                return reads;
            }
            Met::Node(words, plane) => {
                let (a, b) = two_sides(plane, &one, &other);
                more -= 1;
                reads += 1;
                if a == b {
                    at = words.onto(a);
                } else if a {
                    return reads + settle_both(g, words, more, first, second, &one, &other, out);
                } else {
                    return reads + settle_both(g, words, more, second, first, &other, &one, out);
                }
            }
        }
    }
}

// The points of a group, all the way down; how often a node was read. Where they are divided, this calls itself for those in front and goes on
// with the others, so it calls itself at most 63 deep. No `for`: how often it goes on is known only where a group is settled.
#[tactic(auto, using(crate::proofs::Fewer::left_none))]
pub fn settle(g: &Given, child: Onto, left: u32, ids: u64, out: &mut [u8]) -> u64
    requires { Going.Whole g.now × (0 < ids) }
    ensures { Going.Settles g.now.s.now g.now.t g.now.coords.now left (Fast.onto_child g.now.t.table child) (Going.members ids) out.old result out.new }
{
    let mut at = child;
    let mut more = left;
    let mut rest = ids;
    let mut reads: u64 = 0;
    loop {
        if is_one(rest) {
            return reads + settle_alone(g, at, more, first(rest), out);
        }
        if is_two(rest) {
            return reads + settle_pair(g, at, more, first(rest), second(rest), out);
        }
        match meet(g, at, more) {
            Met::Settled(byte) => {
                settle_all(rest, byte, out);
                return reads;
            }
            Met::Node(words, plane) => {
                let front = fronts(g, plane, rest);
                let back = rest - front;
                more -= 1;
                reads += 1;
                if front == 0 {
                    at = words.onto(false);
                } else if back == 0 {
                    at = words.onto(true);
                } else {
                    reads += settle(g, words.onto(true), more, front, out);
                    at = words.onto(false);
                    rest = back;
                }
            }
        }
    }
}
