// Point contents and leaf lookup, as words in lists that a caller lends.
// A call's lists stand one by one, as in `ffi`: the interface for C has no records.
#![tactic(auto)]

ghost use Rattle.std.specs.Prelude.{◌≡◌, ◌≤◌, true, false, length};
ghost use Rattle.words.specs.Words.{written, give};
ghost use Rattle.math.specs.Vector as Vec;
ghost use Rattle.ffi_hull.specs.Layout as Layout;
ghost use Rattle.ffi_walks.specs.Calls as Calls;
ghost use Rattle.ffi_walks.specs.Private as Private;
ghost use Rattle.ffi_walks.specs.Quick as Quick;

use ffi_hull::layout;
use format::section::BspData;
use hull::collision::BspCollisionHull;
use hull::point::{contents_at_point, find_leaf_from};
use math::Vector3;
use nodes::quick::{end_code_sized, walk_quick};
use nodes::table::{HullTable, tables_of};
use walk_words::contents_words;
use words::{LIST_TOO_SHORT, MAP_WORDS, give_words};

// The code of the contents and the visits, where the file has all nodes and planes and the walk is answered. The tables are not handed on, so
// that they stay in registers; and each call that asks this has it in its own code, since one that calls it takes 1.08 to 1.2 of the time.
#[inline(always)]
pub fn quick_contents(
    file: &[u8],
    map: BspData,
    hull: BspCollisionHull,
    point: Vector3,
) -> Option<(u32, u64)>
    ensures { result ≡ Quick.contents_at_once file.now map hull point }
{
    let table = hull.table;
    if table.is_box() {
        return None;
    }
    let drawn = table.is_render();
    let t = tables_of(map, HullTable::of_nodes(drawn), hull.mins, hull.maxs);
    let n = t.nodes;
    let m = t.planes;
    let id = hull.node_id;
    let end = walk_quick(
        file, n.at, n.count, m.at, m.count, drawn, id, point.x, point.y, point.z,
    );
    if end == 0 {
        return None;
    }
    let l = map.leaves;
    let code = end_code_sized(file, l.offset, l.size, drawn, (end / 4294967296) as u16);
    if code == 0 {
        return None;
    }
    Some((code, end % 4294967296))
}

// The leaf's number and the visits, in the same way.
#[inline(always)]
fn quick_leaf(file: &[u8], map: BspData, root: usize, point: Vector3) -> Option<(usize, u64)>
    ensures { result ≡ Private.leaf_at_once file.now map root point }
{
    let t = tables_of(map, HullTable::Render, point, point);
    let n = t.nodes;
    let m = t.planes;
    let end = walk_quick(
        file, n.at, n.count, m.at, m.count, true, root, point.x, point.y, point.z,
    );
    if end == 0 {
        return None;
    }
    let l = map.leaves;
    let leaf = 65535 - end / 4294967296;
    if (l.size as u64) < leaf * 28 + 28 {
        return None;
    }
    Some((leaf as usize, end % 4294967296))
}

fn leaf_words(found: (usize, u64)) -> [u64; 2]
    ensures { result ≡ Calls.leaf_words found }
{
    let (leaf, visits) = found;
    [leaf as u64, visits]
}

// Two words at the front of a list that has room for them. (`give` asks the length again.)
#[inline(always)]
fn put_two(words: [u64; 2], out: &mut [u64]) -> u32
    requires { 2 ≤ length out.old }
    ensures { written result out.new ≡ give words out.old }
{
    out[0] = words[0];
    out[1] = words[1];
    0
}

// The leaf by `find_leaf_from`, whatever the file. (A call, as `any_contents`.)
#[inline(never)]
fn any_leaf(file: &[u8], map: &[u32], root: usize, x: f32, y: f32, z: f32, out: &mut [u64]) -> u32
    ensures { written result out.new ≡ Private.leaf_told file.now (Layout.walked_map map.now) root (Vec.vector x y z) out.old }
{
    let m = layout::walked_map(map);
    give_words(
        find_leaf_from(file, m, root, Vector3 { x, y, z }).map(leaf_words),
        out,
    )
}

// The leaf and the visits: at once, or whatever the file. (A call that takes numbers in registers, and to which `find_leaf` goes on without
// coming back.)
#[inline(never)]
fn leaf_at(file: &[u8], map: &[u32], root: usize, x: f32, y: f32, z: f32, out: &mut [u64]) -> u32
    requires { 2 ≤ length out.old }
    ensures { written result out.new ≡ Private.leaf_told file.now (Layout.walked_map map.now) root (Vec.vector x y z) out.old }
{
    let m = layout::walked_map(map);
    if let Some(found) = quick_leaf(file, m, root, Vector3 { x, y, z }) {
        return put_two(leaf_words(found), out);
    }
    any_leaf(file, map, root, x, y, z, out)
}

// The contents by `contents_at_point`: whatever the file. (A call: what is said at once is not put aside for it.)
#[inline(never)]
fn any_contents(
    file: &[u8],
    map: &[u32],
    render: bool,
    root: usize,
    x: f32,
    y: f32,
    z: f32,
    out: &mut [u64],
) -> u32
    ensures { written result out.new ≡ Private.contents_told file.now (Layout.walked_map map.now) (Layout.node_hull render root) (Vec.vector x y z) out.old }
{
    let m = layout::walked_map(map);
    let h = layout::node_hull(render, root);
    give_words(
        contents_at_point(file, m, h, Vector3 { x, y, z }).map(contents_words),
        out,
    )
}

// The contents at a point by the render nodes or the clip nodes from a root on: at once, or whatever the file.
#[inline(always)]
fn contents_from(
    file: &[u8],
    map: &[u32],
    render: bool,
    root: usize,
    x: f32,
    y: f32,
    z: f32,
    out: &mut [u64],
) -> u32
    requires { 2 ≤ length out.old }
    ensures { written result out.new ≡ Private.contents_told file.now (Layout.walked_map map.now) (Layout.node_hull render root) (Vec.vector x y z) out.old }
{
    let m = layout::walked_map(map);
    let h = layout::node_hull(render, root);
    if let Some((code, visits)) = quick_contents(file, m, h, Vector3 { x, y, z }) {
        return put_two([code as u64, visits], out);
    }
    any_contents(file, map, render, root, x, y, z, out)
}

// A call for each kind of nodes: what it takes fits in registers, `contents` goes on to it without coming back, and its loop is of one kind.
#[inline(never)]
fn contents_drawn(
    file: &[u8],
    map: &[u32],
    root: usize,
    x: f32,
    y: f32,
    z: f32,
    out: &mut [u64],
) -> u32
    requires { 2 ≤ length out.old }
    ensures { written result out.new ≡ Private.contents_told file.now (Layout.walked_map map.now) (Layout.node_hull true root) (Vec.vector x y z) out.old }
{
    contents_from(file, map, true, root, x, y, z, out)
}

#[inline(never)]
fn contents_clipped(
    file: &[u8],
    map: &[u32],
    root: usize,
    x: f32,
    y: f32,
    z: f32,
    out: &mut [u64],
) -> u32
    requires { 2 ≤ length out.old }
    ensures { written result out.new ≡ Private.contents_told file.now (Layout.walked_map map.now) (Layout.node_hull false root) (Vec.vector x y z) out.old }
{
    contents_from(file, map, false, root, x, y, z, out)
}

// The contents by `contents_at_point`, whatever the lists: what is refused, and a box, whose bounds are read here alone.
#[inline(never)]
fn other_contents(file: &[u8], map: &[u32], hull: &[u64], point: &[f32], out: &mut [u64]) -> u32
    ensures { written result out.new ≡ Calls.bsp_contents file.now map.now hull.now point.now out.old }
{
    match layout::asked(map, hull, point, 3, out, 2) {
        Err(e) => e.number(),
        Ok((m, h)) => {
            let p = layout::first_point(point);
            give_words(contents_at_point(file, m, h, p).map(contents_words), out)
        }
    }
}

// The contents at a point of a hull. 22: a map of fewer than 31 words, a hull of fewer than 9, a point of fewer than 3 floats or a list of
// fewer than 2; 20: a hull of no table.
pub fn contents(file: &[u8], map: &[u32], hull: &[u64], point: &[f32], out: &mut [u64]) -> u32
    ensures { written result out.new ≡ Calls.bsp_contents file.now map.now hull.now point.now out.old }
{
    if let Ok((_, h)) = layout::asked(map, hull, point, 3, out, 2) {
        let p = layout::first_point(point);
        let its = &map[..MAP_WORDS];
        let root = h.node_id;
        let table = h.table;
        match table {
            HullTable::Render => return contents_drawn(file, its, root, p.x, p.y, p.z, out),
            HullTable::Clip => return contents_clipped(file, its, root, p.x, p.y, p.z, out),
            HullTable::Box => (),
        }
    }
    other_contents(file, map, hull, point, out)
}

// The leaf that a point is in, from a render node on. 22: a map of fewer than 31 words, a point of fewer than 3 floats or a list of fewer
// than 2.
#[tactic(auto, unfolding(crate::specs::Calls::bsp_find_leaf), using(words::proofs::Giving::told_given, ffi_hull::proofs::Walked::same_leaf_table, ffi_hull::proofs::Walked::first_words))]
pub fn find_leaf(file: &[u8], map: &[u32], root: u64, point: &[f32], out: &mut [u64]) -> u32
    ensures { written result out.new ≡ Calls.bsp_find_leaf file.now map.now root point.now out.old }
{
    if map.len() < MAP_WORDS || point.len() < 3 || out.len() < 2 {
        return LIST_TOO_SHORT;
    }
    let p = layout::first_point(point);
    leaf_at(file, &map[..MAP_WORDS], root as usize, p.x, p.y, p.z, out)
}
