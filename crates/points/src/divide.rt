// Points by their numbers, divided by a plane.
ghost use Rattle.std.specs.Prelude.{◌≡◌, ◌++◌, ◌≤◌, ℕ, Bool, length, take, drop, set};
ghost use Rattle.ways.specs.Groups.{kept, in_front, fronts, backs, fill};
ghost use Rattle.points.specs.Going as Going;

use format::list::copy_front;
use math::{Alignment, Axis, Hyperplane, Vector3};
use nodes::read::is_front;
use words::float_at;

// The point of a number: three coordinates from three times the number on. (`point_at` of `ffi_hull` takes a place in a list that C lends.)
pub fn point_at(coords: &[f32], id: u16) -> Vector3
    ensures { result ≡ Going.point_at coords.now id }
{
    let at = (id as usize) * 3;
    Vector3 {
        x: float_at(coords, at),
        y: float_at(coords, at + 1),
        z: float_at(coords, at + 2),
    }
}

#[tactic(auto, using(crate::proofs::Meeting::front_is), unfolding(ways::specs::Groups::in_front))]
pub fn in_front(coords: &[f32], plane: Hyperplane, id: u16) -> bool
    ensures { result ≡ in_front (Going.point_at coords.now) plane id }
{
    is_front(plane.point_side(point_at(coords, id)))
}

// Whether a coordinate of a point is at least a distance.
#[tactic(auto, unfolding(crate::specs::Going::reaches))]
pub fn reaches(coords: &[f32], axis: u16, dist: f32, id: u16) -> bool
    ensures { result ≡ Going.reaches coords.now axis dist id }
{
    float_at(coords, (id as usize) * 3 + (axis as usize)) >= dist
}

// The points of a list that go to the front, to the front of the list, the others aside, each in their order; how many are in front. Both
// are written at each turn, so that the side is no branch. The two lists are no struct with a ghost field for what is needed of their lengths:
// that can be proved, but each part of a list that `settle_group` lends would be a new one, which is no plainer.
fn part_by<F: Fn(u16) -> bool>(ids: &mut [u16], aside: &mut [u16], goes_front: F) -> usize
    requires calls { F.IsAlwaysCallable goes_front }
    requires room { length ids.old ≤ length aside.old }
    ensures { (f : ℕ → Bool) → Going.Tests (F.post goes_front) f → Going.Sided f ids.old ids.new aside.new result }
{
    let mut front = 0;
    for i in 0..ids.len() {
        let id = ids[i];
        ids[front] = id;
        aside[i - front] = id;
        if goes_front(id) {
            front += 1;
        }
    }
    front
}

// Which of a point's coordinates an axis is.
pub fn axis_number(axis: Axis) -> u16
    ensures { result ≡ Going.axis_number axis }
{
    axis as u16
}

// The points of a list parted by the side of a plane.
fn part(coords: &[f32], plane: Hyperplane, ids: &mut [u16], aside: &mut [u16]) -> usize
    requires { length ids.old ≤ length aside.old }
    ensures { Going.Sided (in_front (Going.point_at coords.now) plane) ids.old ids.new aside.new result }
{
    match plane.alignment {
        Alignment::Axis(a) => {
            let axis = axis_number(a);
            part_by(ids, aside, |id| reaches(coords, axis, plane.dist, id))
        }
        Alignment::Normal(_) => part_by(ids, aside, |id| in_front(coords, plane, id)),
    }
}

// How many points of a list go to the front. The side is no branch; with `filter(..).count()` it is, and 64 points spread out took 25% longer.
fn count_by<F: Fn(u16) -> bool>(ids: &[u16], goes_front: F) -> usize
    requires { F.IsAlwaysCallable goes_front }
    ensures { (f : ℕ → Bool) → Going.Tests (F.post goes_front) f → result ≡ length (kept f ids.now) }
{
    let mut front = 0;
    for id in ids {
        if goes_front(*id) {
            front += 1;
        }
    }
    front
}

// How many points of a list are in front of a plane.
fn count(coords: &[f32], plane: Hyperplane, ids: &[u16]) -> usize
    ensures { result ≡ length (fronts (Going.point_at coords.now) plane ids.now) }
{
    match plane.alignment {
        Alignment::Axis(a) => {
            let axis = axis_number(a);
            count_by(ids, |id| reaches(coords, axis, plane.dist, id))
        }
        Alignment::Normal(_) => count_by(ids, |id| in_front(coords, plane, id)),
    }
}

// `copy_front` as a call: in line, where it is seen that the lists lie apart, the compiler makes it a call of `memcpy`.
#[inline(never)]
pub fn copy_apart<T: Copy>(items: &[T], list: &mut [T])
    ensures { list.new ≡ take (length list.old) items.now ++ drop (length items.now) list.old }
{
    copy_front(items, list)
}

// The points in front of the plane first, then those behind it, each in their order; how many are in front.
fn reorder(coords: &[f32], plane: Hyperplane, ids: &mut [u16], aside: &mut [u16]) -> usize
    requires { length ids.old ≤ length aside.old }
    ensures { (ids.new ≡ fronts (Going.point_at coords.now) plane ids.old ++ backs (Going.point_at coords.now) plane ids.old) × (result ≡ length (fronts (Going.point_at coords.now) plane ids.old)) }
{
    let front = part(coords, plane, ids, aside);
    let behind = ids.len() - front;
    copy_apart(&aside[..behind], &mut ids[front..]);
    front
}

// Whether some of the first eight of many points are in front and some are not, so that it is not worth counting all.
fn are_mixed(coords: &[f32], plane: Hyperplane, ids: &[u16]) -> bool {
    if ids.len() <= 8 {
        return false;
    }
    let few = count(coords, plane, &ids[..8]);
    if few == 0 {
        return false;
    }
    few < 8
}

// The same as `reorder`. Points that all go one way, as most groups do where points are near one another, stay as they are.
pub fn divide(coords: &[f32], plane: Hyperplane, ids: &mut [u16], aside: &mut [u16]) -> usize
    requires { length ids.old ≤ length aside.old }
    ensures { (ids.new ≡ fronts (Going.point_at coords.now) plane ids.old ++ backs (Going.point_at coords.now) plane ids.old) × (result ≡ length (fronts (Going.point_at coords.now) plane ids.old)) }
{
    if are_mixed(coords, plane, ids) {
        return reorder(coords, plane, ids, aside);
    }
    let front = count(coords, plane, ids);
    if front == 0 {
        return 0;
    }
    if front == ids.len() {
        return front;
    }
    reorder(coords, plane, ids, aside)
}

// The byte at the place of a point, if the list has it. With `get_mut` in place of the test the proof does not close where it gives nothing.
pub fn put(out: &mut [u8], id: u16, byte: u8)
    ensures { out.new ≡ set out.old id byte }
{
    let at = id as usize;
    if at < out.len() {
        out[at] = byte;
    }
}

// The same byte for each point of a list.
#[tactic(auto, using(crate::proofs::Lists::fill_next, crate::proofs::Lists::fill_all))]
pub fn settle(ids: &[u16], byte: u8, out: &mut [u8])
    ensures { out.new ≡ fill (λ q. byte) ids.now out.old }
{
    for id in ids {
        put(out, *id, byte);
    }
}
