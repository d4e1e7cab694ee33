// Points that go down side by side: two walks whose points have gone apart, where a processor waits for the records of one while it reads those of
// the other; and the sides of eight points that stand at one node.
ghost use Rattle.std.specs.Prelude.{◌≡◌, ◌+◌, ◌*◌, ◌/◌, ◌<◌, ◌≤◌, cond, length, get_or, [], ◌∷◌};
ghost use Rattle.std.specs.Float.{nan};
ghost use Rattle.std.specs.Float.Ieee.{le};
ghost use Rattle.math.specs.Plane as Pl;
ghost use Rattle.nodes.specs.Fast as Fast;
ghost use Rattle.nodes.specs.Walks as Walks;
ghost use Rattle.nodes.specs.Lanes as Lanes;
ghost use Rattle.nodes.specs.Answers as Answers;

use crate::bytes::{f32_at, u32_at};
use crate::here::{normal_of, plane_here};
use crate::lines::point_of;
use crate::read::{Words, is_front};
use crate::table::Tables;
use crate::whole::{Sections, are_whole, sections_of};
use math::{Hyperplane, Vector3};

// The word of the end that a walk comes to, and how many nodes it entered.
#[derive(Clone, Copy)]
pub struct Lane {
    pub word: u16,
    pub visits: u32,
}

// The child's word on a side, by a shift of both words: no branch. Where the points are spread out no processor foresees the side. (`on` of `Words`
// is made a branch.)
#[inline(always)]
fn picked(words: Words, front: bool) -> u16
    ensures { result ≡ Fast.word_on words front }
{
    let by = 16 * ((!front) as u32);
    ((words.both >> by) % 65536) as u16
}

// Whether a point is in front of a slanted plane, or of one whose type is none. (A call, as `is_ahead` of `quick`.)
#[inline(never)]
fn is_beyond(bytes: &[u8; 20], point: &[f32; 3]) -> bool
    ensures { Pl.side_if result ≡ Pl.point_side (Pl.new_plane (Fast.normal bytes.now 0) (Fast.f32 bytes.now 12)) (Fast.point_of point.now) }
{
    let plane = Hyperplane::new(normal_of(bytes), f32_at(bytes, 12));
    is_front(plane.point_side(point_of(point)))
}

// The child's word on the point's side of a plane: as `word_ahead` of `quick`, but that the side is no branch.
#[inline(always)]
fn word_beside(bytes: &[u8; 20], words: Words, point: &[f32; 3]) -> u16
    ensures { result ≡ Walks.word_at words (Pl.point_side (Fast.plane_here bytes.now 0) (Fast.point_of point.now)) }
{
    let kind = u32_at(bytes, 16);
    if kind < 3 {
        let dist = f32_at(bytes, 12);
        return picked(words, point[kind as usize] >= dist);
    }
    picked(words, is_beyond(bytes, point))
}

impl<'a> Sections<'a> {
    // A step of a walk that stands at a word: the next word, the same at an end, 65536 where the walk is refused.
    #[tactic(auto, using(crate::proofs::Beside::at_an_end, crate::proofs::Beside::outside, crate::proofs::Beside::spent, crate::proofs::Making::room))]
    #[inline(always)]
    fn step(&self, count: u32, word: u32, visits: u32, point: &[f32; 3]) -> u32
        requires { (word < 65536) × (count ≤ length self.now.nodes.now / Fast.node_size self.now.render) }
        ensures said { Lanes.StepsIn self.now.nodes.now self.now.planes.now self.now.render count (Fast.point_of point.now) word visits result }
        ensures may { word < 32768 → result < 65536 → visits < count }
    {
        if 32768 <= word {
            return word;
        }
        if count <= word {
            return 65536;
        }
        if count <= visits {
            return 65536;
        }
        match self.found_at(word as usize) {
            Err(_) => 65536,
            Ok((words, plane)) => word_beside(plane, words, point) as u32,
        }
    }
}

// The lane that stands at a word.
#[inline(always)]
fn lane_at(word: u32, visits: u32) -> Lane
    requires { word < 65536 }
    ensures { result ≡ Lanes.lane_at word visits }
{
    Lane {
        word: word as u16,
        visits,
    }
}

// Whether both walks stand at nodes.
#[tactic(auto, unfolding(crate::specs::Lanes::both_go))]
#[inline(always)]
fn both_go(a: u32, b: u32) -> bool
    ensures { result ≡ Lanes.both_go a b }
{
    if a < 32768 {
        return b < 32768;
    }
    false
}

impl<'a> Sections<'a> {
    // One walk on to its end, from a word after so many visits. Nothing where it is refused. No range: it ends by itself.
    #[inline(always)]
    fn go_alone(&self, count: u32, word: u32, visits: u32, point: &[f32; 3]) -> Option<Lane>
        requires { (word < 65536) × ((visits ≤ count) × (count ≤ length self.now.nodes.now / Fast.node_size self.now.render)) }
        ensures { Lanes.GoesOn self.now.nodes.now self.now.planes.now self.now.render count (Fast.point_of point.now) word visits (λ t. Answers.one_answer t result) }
    {
        let mut at = word;
        let mut so_far = visits;
        while at < 32768 {
            let next = self.step(count, at, so_far, point);
            if 65536 <= next {
                return None;
            }
            at = next;
            so_far += 1;
        }
        Some(lane_at(at, so_far))
    }

    // Two walks, side by side until one of them is at its end; then the other goes on alone.
    #[inline(always)]
    fn go_beside(
        &self,
        count: u32,
        first: u16,
        second: u16,
        one: &[f32; 3],
        other: &[f32; 3],
    ) -> Option<(Lane, Lane)>
        requires { count ≤ length self.now.nodes.now / Fast.node_size self.now.render }
        ensures { Lanes.TwoIn self.now.nodes.now self.now.planes.now self.now.render count first second (Fast.point_of one.now) (Fast.point_of other.now) (λ t. Answers.two_answer t result) }
    {
        let mut a = first as u32;
        let mut b = second as u32;
        let mut visits: u32 = 0;
        while both_go(a, b) {
            let c = self.step(count, a, visits, one);
            if 65536 <= c {
                return None;
            }
            let d = self.step(count, b, visits, other);
            if 65536 <= d {
                return None;
            }
            a = c;
            b = d;
            visits += 1;
        }
        let x = self.go_alone(count, a, visits, one)?;
        let y = self.go_alone(count, b, visits, other)?;
        Some((x, y))
    }

    // Two walks, from the words of two children, to their ends, by the bytes of so many nodes. Nothing is said where one of them is refused. (A loop
    // for each kind of nodes: in one for both the kind is a branch more at each node. The points are lists, since of a Vector3 that was written
    // field by field two coordinates are loaded at once, which waits for the two stores. By a branch where one goes on alone, as in a walk of one
    // point, it took 1.00 to 1.06 of the time.)
    pub fn walk_two(
        &self,
        count: u32,
        first: u16,
        second: u16,
        one: &[f32; 3],
        other: &[f32; 3],
    ) -> Option<(Lane, Lane)>
        ensures { Lanes.TwoIn self.now.nodes.now self.now.planes.now self.now.render count first second (Fast.point_of one.now) (Fast.point_of other.now) (λ t. Answers.two_answer t result) }
    {
        if self.node_count() < (count as usize) {
            return None;
        }
        let nodes = self.nodes;
        let planes = self.planes;
        if self.render {
            let drawn = Sections {
                nodes,
                planes,
                render: true,
            };
            return drawn.go_beside(count, first, second, one, other);
        }
        let clipped = Sections {
            nodes,
            planes,
            render: false,
        };
        clipped.go_beside(count, first, second, one, other)
    }
}

// The same, or nothing where the file does not have all nodes and planes.
pub fn walk_two(
    s: &[u8],
    t: Tables,
    first: u16,
    second: u16,
    p: Vector3,
    q: Vector3,
) -> Option<(Lane, Lane)>
    ensures { Answers.two_answer t.table result ≡ Lanes.walk_two s.now t first second p q }
{
    let whole = are_whole(t, s.len());
    if !whole {
        return None;
    }
    let part = t.nodes;
    let one = [p.x, p.y, p.z];
    let other = [q.x, q.y, q.z];
    sections_of(s, t, whole).walk_two(part.count, first, second, &one, &other)
}

// The plane of twenty bytes.
pub fn plane_of(bytes: &[u8; 20]) -> Hyperplane
    ensures { result ≡ Fast.plane_here bytes.now 0 }
{
    plane_here(bytes)
}

// A number's lowest bit, and the bits above it.
fn above(bit: bool, rest: u64) -> u64
    requires { rest < 256 }
    ensures said { result ≡ cond bit 1 0 + 2 * rest }
    ensures few { result ≤ 1 + 2 * rest }
{
    if bit { 1 + 2 * rest } else { 2 * rest }
}

// Which of eight points are at a distance along an axis, or farther: a bit each, the first one's the lowest.
fn axis_sides(points: &[f32; 24], axis: usize, dist: f32) -> u64
    requires { axis < 3 }
    ensures { result ≡ Lanes.number (Lanes.of_eight (λ q. le dist (get_or points.now (axis + 3 * q) nan))) }
{
    let high = above(points[axis + 21] >= dist, 0);
    let high = above(points[axis + 18] >= dist, high);
    let high = above(points[axis + 15] >= dist, high);
    let high = above(points[axis + 12] >= dist, high);
    let high = above(points[axis + 9] >= dist, high);
    let high = above(points[axis + 6] >= dist, high);
    let high = above(points[axis + 3] >= dist, high);
    above(points[axis] >= dist, high)
}

// Whether one of eight points is in front of a plane.
fn is_ahead_of(plane: Hyperplane, points: &[f32; 24], place: usize) -> bool
    requires { place < 8 }
    ensures { Pl.side_if result ≡ Pl.point_side plane (Lanes.point_in points.now place) }
{
    is_front(plane.point_side(Vector3 {
        x: points[3 * place],
        y: points[3 * place + 1],
        z: points[3 * place + 2],
    }))
}

// The same of a slanted plane, or of one whose type is none. (A call: a group's numbers stay in registers.)
#[inline(never)]
fn slanted_sides(bytes: &[u8; 20], points: &[f32; 24]) -> u64
    ensures { Lanes.Sides (Pl.new_plane (Fast.normal bytes.now 0) (Fast.f32 bytes.now 12)) points.now result }
{
    let plane = Hyperplane::new(normal_of(bytes), f32_at(bytes, 12));
    let high = above(is_ahead_of(plane, points, 7), 0);
    let high = above(is_ahead_of(plane, points, 6), high);
    let high = above(is_ahead_of(plane, points, 5), high);
    let high = above(is_ahead_of(plane, points, 4), high);
    let high = above(is_ahead_of(plane, points, 3), high);
    let high = above(is_ahead_of(plane, points, 2), high);
    let high = above(is_ahead_of(plane, points, 1), high);
    above(is_ahead_of(plane, points, 0), high)
}

// Which of eight points are in front of the plane of twenty bytes: no loop and, of an axis plane, no branch.
#[inline(always)]
pub fn sides(bytes: &[u8; 20], points: &[f32; 24]) -> u64
    ensures { Lanes.Sides (Fast.plane_here bytes.now 0) points.now result }
{
    let kind = u32_at(bytes, 16);
    if kind < 3 {
        return axis_sides(points, kind as usize, f32_at(bytes, 12));
    }
    slanted_sides(bytes, points)
}

// Whether each of two points is in front of a slanted plane, or of one whose type is none. (A call, as `is_beyond`.)
#[inline(never)]
fn slanted_two(bytes: &[u8; 20], p: &[f32; 3], q: &[f32; 3]) -> (bool, bool)
    ensures first { Pl.side_if result.0 ≡ Pl.point_side (Pl.new_plane (Fast.normal bytes.now 0) (Fast.f32 bytes.now 12)) (Fast.point_of p.now) }
    ensures second { Pl.side_if result.1 ≡ Pl.point_side (Pl.new_plane (Fast.normal bytes.now 0) (Fast.f32 bytes.now 12)) (Fast.point_of q.now) }
{
    let plane = Hyperplane::new(normal_of(bytes), f32_at(bytes, 12));
    (
        is_front(plane.point_side(point_of(p))),
        is_front(plane.point_side(point_of(q))),
    )
}

// Whether each of two points is in front of the plane of twenty bytes.
#[inline(always)]
pub fn two_sides(bytes: &[u8; 20], p: &[f32; 3], q: &[f32; 3]) -> (bool, bool)
    ensures first { Pl.side_if result.0 ≡ Pl.point_side (Fast.plane_here bytes.now 0) (Fast.point_of p.now) }
    ensures second { Pl.side_if result.1 ≡ Pl.point_side (Fast.plane_here bytes.now 0) (Fast.point_of q.now) }
{
    let kind = u32_at(bytes, 16);
    if kind < 3 {
        let dist = f32_at(bytes, 12);
        return (p[kind as usize] >= dist, q[kind as usize] >= dist);
    }
    slanted_two(bytes, p, q)
}
