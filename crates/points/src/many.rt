// The contents at many points of a hull.
// The file, its map record and the hull stand apart as in `hull`.
ghost use Rattle.std.specs.Prelude.{◌≡◌, ◌≤◌, length};
ghost use Rattle.format.specs.Answers.{answer_of};
ghost use Rattle.format.specs.Listed.{listed};
ghost use Rattle.hull.specs.Hull.{hull_table};
ghost use Rattle.nodes.specs.Fast as Fast;
ghost use Rattle.points.specs.Points as Points;
ghost use Rattle.points.specs.Going as Going;

use crate::divide::{copy_apart, point_at};
use crate::few;
use crate::group::settle_group;
use format::refusal::{Answer, Refusal};
use format::section::BspData;
use hull::collision::BspCollisionHull;
use hull::point::contents_in;
use nodes::read::Onto;
use nodes::table::{Tables, tables_of};
use nodes::whole::are_whole;

// The list's entries are their own places.
#[tactic(auto, using(crate::proofs::Lists::number_next))]
fn number(ids: &mut [u16])
    requires { length ids.old ≤ 1024 }
    ensures { ids.new ≡ Going.from 0 (length ids.old) }
{
    for (i, id) in ids.iter_mut().enumerate() {
        *id = i as u16;
    }
}

// The place of the first zero among the bytes; their number where there is none, as the definition has it.
fn first_zero(bytes: &[u8]) -> usize
    ensures { result ≡ Going.first_zero bytes.now }
{
    bytes
        .iter()
        .position(|byte| *byte == 0)
        .unwrap_or(bytes.len())
}

// The codes of the points, once each has its byte; or the refusal of the first that is refused, whose byte is 0.
fn told(
    s: &[u8],
    t: Tables,
    root: usize,
    coords: &[f32],
    reads: u64,
    bytes: &[u8],
    list: &mut [u8],
) -> Answer<u64>
    requires { Going.Done s.now t coords.now root reads bytes.now (length list.old) }
    ensures { listed (answer_of result) list.new ≡ Points.answered (Fast.table s.now t) root coords.now list.old }
{
    let zero = first_zero(bytes);
    let count = bytes.len();
    if zero < count {
        contents_in(s, t, root, point_at(coords, zero as u16))?;
        // never: a point that is answered has a code
        return Err(Refusal::NotPoints);
    }
    copy_apart(bytes, &mut list[..count]);
    Ok(reads)
}

// One point: the walk that it takes alone.
fn answer_one(
    s: &[u8],
    map: BspData,
    hull: BspCollisionHull,
    coords: &[f32],
    list: &mut [u8],
) -> Answer<u64>
    requires { Going.Asked 1 coords.now (length list.old) }
    ensures { listed (answer_of result) list.new ≡ Points.answered (hull_table s.now map hull) hull.node_id coords.now list.old }
{
    let t = tables_of(map, hull.table, hull.mins, hull.maxs);
    let (contents, visits) = contents_in(s, t, hull.node_id, point_at(coords, 0))?;
    list[0] = contents.code() as u8;
    Ok(visits)
}

// Some points, at most N: their numbers in a list, whose entries to clear are as few as N says.
fn answer_up_to<const N: usize>(
    s: &[u8],
    t: Tables,
    root: usize,
    coords: &[f32],
    list: &mut [u8],
) -> Answer<u64>
    requires { (N ≤ 1024) × Going.Asked N coords.now (length list.old) }
    ensures { listed (answer_of result) list.new ≡ Points.answered (Fast.table s.now t) root coords.now list.old }
{
    let count = coords.len() / 3;
    let mut numbers = [0u16; N];
    let mut aside = [0u16; N];
    let mut bytes = [0u8; N];
    let ids = &mut numbers[..count];
    number(ids);
    let reads = settle_group(
        s,
        t,
        coords,
        Onto::Node(root),
        t.nodes.count,
        ids,
        &mut aside[..count],
        &mut bytes[..count],
    );
    told(s, t, root, coords, reads, &bytes[..count], list)
}

// At most 64 points: a bit each of one number, where the file has all nodes and planes.
fn answer_few(s: &[u8], t: Tables, root: usize, coords: &[f32], list: &mut [u8]) -> Answer<u64>
    requires { Going.Asked 64 coords.now (length list.old) }
    ensures { listed (answer_of result) list.new ≡ Points.answered (Fast.table s.now t) root coords.now list.old }
{
    let whole = are_whole(t, s.len());
    if !whole {
        return answer_up_to::<64>(s, t, root, coords, list);
    }
    let eight = few::first_eight(coords);
    let given = few::lent(s, t, coords, &eight, whole);
    let count = coords.len() / 3;
    let mut bytes = [0u8; 64];
    let ids = few::all(count);
    let reads = few::settle(
        &given,
        Onto::Node(root),
        t.nodes.count,
        ids,
        &mut bytes[..count],
    );
    told(s, t, root, coords, reads, &bytes[..count], list)
}

// Some points, at most 1,024.
fn answer_some(
    s: &[u8],
    map: BspData,
    hull: BspCollisionHull,
    coords: &[f32],
    list: &mut [u8],
) -> Answer<u64>
    requires { Going.Asked 1024 coords.now (length list.old) }
    ensures { listed (answer_of result) list.new ≡ Points.answered (hull_table s.now map hull) hull.node_id coords.now list.old }
{
    let t = tables_of(map, hull.table, hull.mins, hull.maxs);
    if coords.len() <= 192 {
        return answer_few(s, t, hull.node_id, coords, list);
    }
    answer_up_to::<1024>(s, t, hull.node_id, coords, list)
}

// The contents codes of the points, in their order, at the front of the list, and how often a node was read: once for all points that
// come to it the same way. 24, then 22, then the refusal of the first point that is refused; a refusal leaves the list as it is.
#[tactic(auto, using(crate::proofs::Opening::too_many, crate::proofs::Opening::not_in_threes, crate::proofs::Opening::too_short, crate::proofs::Opening::all_right, crate::proofs::Opening::no_points, crate::proofs::Opening::asked))]
pub fn contents_at_points(
    s: &[u8],
    map: BspData,
    hull: BspCollisionHull,
    coords: &[f32],
    list: &mut [u8],
) -> Answer<u64>
    ensures { listed (answer_of result) list.new ≡ Points.contents_of_points (hull_table s.now map hull) hull.node_id coords.now list.old }
{
    if 3072 < coords.len() {
        return Err(Refusal::NotPoints);
    }
    if coords.len() % 3 != 0 {
        return Err(Refusal::NotPoints);
    }
    let count = coords.len() / 3;
    if list.len() < count {
        return Err(Refusal::ListTooShort);
    }
    if count == 0 {
        return Ok(0);
    }
    if count == 1 {
        return answer_one(s, map, hull, coords, list);
    }
    answer_some(s, map, hull, coords, list)
}
