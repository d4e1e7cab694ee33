// Planes of the file by their number, from the bytes of those that can be read: for a node table that a caller lends, whose planes are the
// file's. One test of the number (30) and one of the bytes (23) a plane. `count` is how many planes the section has; `planes` are the bytes of
// those that can be read, which may be fewer: so the count is no length, and stands beside the bytes in each reader, as in the callers' table.
ghost use Rattle.std.specs.Prelude.{◌≡◌, ◌/◌, min, if◌then◌else◌};
ghost use Rattle.format.specs.Answer.{mapped};
ghost use Rattle.format.specs.Answers.{answer_of};
ghost use Rattle.nodes.specs.Fast as Fast;
ghost use Rattle.nodes.specs.Numbered as Numbered;

use crate::bytes::{f32_at, plane_bytes_at, u32_at};
use crate::here::{dists_here, normal_of, plane_here};
use crate::read::is_front;
use format::refusal::{Answer, Refusal};
use format::section::BspFileSection;
use math::{Hyperplane, Vector3};

// How many planes a section has.
pub fn plane_count(section: BspFileSection) -> u32
    ensures { result ≡ section.size / 20 }
{
    section.size / 20
}

// How many of so many planes the limit allows: all or none.
fn allowed(count: u32) -> u32
    ensures { result ≡ Numbered.allowed count }
{
    if 8192 < count { 0 } else { count }
}

// The bytes of the planes that can be read.
#[tactic(auto, unfolding(crate::specs::Numbered::readable))]
pub fn readable_planes(file: &[u8], section: BspFileSection) -> &[u8]
    ensures { result.now ≡ Numbered.readable file.now section }
{
    let at = section.offset as usize;
    let want = at + (allowed(section.size / 20) as usize) * 20;
    let end = want.min(file.len());
    if end <= at {
        return &file[..0];
    }
    &file[at..end]
}

// The number on a side, of two.
fn of_two(front: u32, back: u32, in_front: bool) -> u32
    ensures { result ≡ (if in_front then front else back) }
{
    if in_front { front } else { back }
}

// Of two numbers the one on the point's side of the plane of a number: the side picks where it is found, so that it is one branch. One test
// finds the planes that can be read; the coordinate comes from a list by the plane's type, and is no branch.
pub fn pick_by_number(
    planes: &[u8],
    count: u32,
    number: u32,
    point: Vector3,
    front: u32,
    back: u32,
) -> Answer<u32>
    ensures { answer_of result ≡ Numbered.picked_by front back (Fast.side_from point (Numbered.plane_numbered planes.now count number)) }
{
    let known = (count as usize).min(planes.len() / 20);
    if known <= (number as usize) {
        if count <= number {
            return Err(Refusal::IndexOutsideTable);
        }
        return Err(Refusal::Unreadable);
    }
    let bytes = plane_bytes_at(planes, (number as usize) * 20);
    let dist = f32_at(bytes, 12);
    let kind = u32_at(bytes, 16);
    if kind < 3 {
        let coordinates = [point.x, point.y, point.z];
        return Ok(of_two(front, back, coordinates[kind as usize] >= dist));
    }
    let plane = Hyperplane::new(normal_of(bytes), dist);
    if is_front(plane.point_side(point)) {
        return Ok(front);
    }
    Ok(back)
}

// The bytes of the plane of a number. 30: there is no such plane, then 23: its bytes cannot be read.
#[tactic(auto, using(crate::proofs::Numbering::outside_30, crate::proofs::Numbering::unread_23, crate::proofs::Numbering::there))]
#[inline(always)]
fn plane_found(planes: &[u8], count: u32, number: u32) -> Answer<&[u8; 20]>
    ensures { mapped (λ b. Fast.plane_here b.now 0) (answer_of result) ≡ Numbered.plane_numbered planes.now count number }
{
    if count <= number {
        return Err(Refusal::IndexOutsideTable);
    }
    let at = (number as usize) * 20;
    if planes.len() < at + 20 {
        return Err(Refusal::Unreadable);
    }
    Ok(plane_bytes_at(planes, at))
}

// How far two points are from the plane of a number.
pub fn dists_by_number(
    planes: &[u8],
    count: u32,
    number: u32,
    p: Vector3,
    q: Vector3,
) -> Answer<(f32, f32)>
    ensures { answer_of result ≡ Fast.dists_from p q (Numbered.plane_numbered planes.now count number) }
{
    Ok(dists_here(plane_found(planes, count, number)?, p, q))
}

// The plane of a number.
pub fn plane_by_number(planes: &[u8], count: u32, number: u32) -> Answer<Hyperplane>
    ensures { answer_of result ≡ Numbered.plane_numbered planes.now count number }
{
    Ok(plane_here(plane_found(planes, count, number)?))
}
