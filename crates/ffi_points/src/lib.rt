// The contents at many points, as bytes and a word in lists that a caller lends.
// A call's lists stand one by one, as in `ffi`: the interface for C has no records.
#![tactic(auto)]

ghost use Rattle.std.specs.Prelude.{◌≡◌, ◌<◌, true, false, length};
ghost use Rattle.words.specs.Words.{left};
ghost use Rattle.math.specs.Vector as Vec;
ghost use Rattle.ffi_hull.specs.Layout as Layout;
ghost use Rattle.ffi_points.specs.Calls as Calls;
ghost use Rattle.ffi_points.specs.Private as Private;

use ffi_hull::layout;
use ffi_walks::quick_contents;
use format::refusal::Refusal;
use hull::point::contents_at_point;
use math::Vector3;
use nodes::table::HullTable;
use points::many::contents_at_points;
use words::{LIST_TOO_SHORT, MAP_WORDS, give_number};

// More than 1,024 points, or coordinates not in threes. (As a constant, as those of `words`.)
pub const NOT_POINTS: u32 = Refusal::NotPoints as u32;

// The contents at one point by `contents_at_point`, whatever the file. (A call: what is said at once is not put aside for it.)
#[inline(never)]
fn any_one(
    file: &[u8],
    map: &[u32],
    render: bool,
    root: usize,
    x: f32,
    y: f32,
    z: f32,
    list: &mut [u8],
    out: &mut [u64],
) -> u32
    requires { (0 < length list.old) × (0 < length out.old) }
    ensures { left result list.new out.new ≡ Private.one_told file.now (Layout.walked_map map.now) (Layout.node_hull render root) (Vec.vector x y z) list.old out.old }
{
    let m = layout::walked_map(map);
    let h = layout::node_hull(render, root);
    match contents_at_point(file, m, h, Vector3 { x, y, z }) {
        Err(e) => e.number(),
        Ok((contents, visits)) => {
            list[0] = contents.code() as u8;
            out[0] = visits;
            0
        }
    }
}

// The contents at one point by the render nodes or the clip nodes from a root on: at once, or whatever the file.
#[inline(always)]
fn one_from(
    file: &[u8],
    map: &[u32],
    render: bool,
    root: usize,
    x: f32,
    y: f32,
    z: f32,
    list: &mut [u8],
    out: &mut [u64],
) -> u32
    requires { (0 < length list.old) × (0 < length out.old) }
    ensures { left result list.new out.new ≡ Private.one_told file.now (Layout.walked_map map.now) (Layout.node_hull render root) (Vec.vector x y z) list.old out.old }
{
    let m = layout::walked_map(map);
    let h = layout::node_hull(render, root);
    if let Some((code, visits)) = quick_contents(file, m, h, Vector3 { x, y, z }) {
        list[0] = code as u8;
        out[0] = visits;
        return 0;
    }
    any_one(file, map, render, root, x, y, z, list, out)
}

// A call for each kind of nodes, as in `ffi_walks`: what it takes fits in registers, as the three lists that it gets are of lengths that are always
// the same.
#[inline(never)]
fn one_drawn(
    file: &[u8],
    map: &[u32],
    root: usize,
    x: f32,
    y: f32,
    z: f32,
    list: &mut [u8],
    out: &mut [u64],
) -> u32
    requires { (0 < length list.old) × (0 < length out.old) }
    ensures { left result list.new out.new ≡ Private.one_told file.now (Layout.walked_map map.now) (Layout.node_hull true root) (Vec.vector x y z) list.old out.old }
{
    one_from(file, map, true, root, x, y, z, list, out)
}

#[inline(never)]
fn one_clipped(
    file: &[u8],
    map: &[u32],
    root: usize,
    x: f32,
    y: f32,
    z: f32,
    list: &mut [u8],
    out: &mut [u64],
) -> u32
    requires { (0 < length list.old) × (0 < length out.old) }
    ensures { left result list.new out.new ≡ Private.one_told file.now (Layout.walked_map map.now) (Layout.node_hull false root) (Vec.vector x y z) list.old out.old }
{
    one_from(file, map, false, root, x, y, z, list, out)
}

// However many points, whatever the lists: what is refused, and a box.
#[tactic(auto, using(crate::proofs::Calling::too_many, crate::proofs::Calling::not_in_threes, crate::proofs::Calling::short_list))]
#[inline(never)]
fn other_points(
    file: &[u8],
    map: &[u32],
    hull: &[u64],
    points: &[f32],
    list: &mut [u8],
    out: &mut [u64],
) -> u32
    ensures { left result list.new out.new ≡ Calls.bsp_contents_points file.now map.now hull.now points.now list.old out.old }
{
    if 3072 < points.len() || points.len() % 3 != 0 {
        return NOT_POINTS;
    }
    if list.len() < points.len() / 3 {
        return LIST_TOO_SHORT;
    }
    match layout::asked(map, hull, points, 0, out, 1) {
        Err(e) => e.number(),
        Ok((m, h)) => give_number(contents_at_points(file, m, h, points, list), out),
    }
}

// The contents codes of the points of a hull, a byte each in their order, at the front of `list`, and how often a node was read. 24: more
// than 1,024 points or floats not in threes; then 22: a map of fewer than 31 words, a hull of fewer than 9, no word for the reads or a list
// of fewer bytes than points; 20: a hull of no table; then the refusal of the first point that is refused. A refusal writes nothing.
pub fn contents_points(
    file: &[u8],
    map: &[u32],
    hull: &[u64],
    points: &[f32],
    list: &mut [u8],
    out: &mut [u64],
) -> u32
    ensures { left result list.new out.new ≡ Calls.bsp_contents_points file.now map.now hull.now points.now list.old out.old }
{
    if points.len() == 3 && 1 <= list.len() {
        if let Ok((_, h)) = layout::asked(map, hull, points, 0, out, 1) {
            let p = layout::first_point(points);
            let its = &map[..MAP_WORDS];
            let root = h.node_id;
            let byte = &mut list[..1];
            let word = &mut out[..1];
            let table = h.table;
            match table {
                HullTable::Render => return one_drawn(file, its, root, p.x, p.y, p.z, byte, word),
                HullTable::Clip => return one_clipped(file, its, root, p.x, p.y, p.z, byte, word),
                HullTable::Box => (),
            }
        }
    }
    other_points(file, map, hull, points, list, out)
}
