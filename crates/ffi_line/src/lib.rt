// Whole-line traces, as words in lists that a caller lends.
// A call's lists stand one by one, as in `ffi`: the interface for C has no records.
#![tactic(auto)]

ghost use Rattle.std.specs.Prelude.{◌≡◌, true, false};
ghost use Rattle.words.specs.Words.{give, written};
ghost use Rattle.math.specs.Vector as Vec;
ghost use Rattle.ffi_hull.specs.Layout as Layout;
ghost use Rattle.ffi_line.specs.Calls as Calls;
ghost use Rattle.ffi_line.specs.Private as Private;

use ffi_hull::layout;
use hull::collision::BspCollisionHull;
use line::state::LineTrace;
use math::Vector3;
use nodes::table::HullTable;
use words::{LIST_TOO_SHORT, MAP_WORDS, flag_word, float_word};

fn line_words(line: LineTrace) -> [u64; 12]
    ensures { result ≡ Calls.line_words line }
{
    let end = line.end;
    let plane = line.plane;
    let normal = plane.normal;
    [
        float_word(line.fraction),
        float_word(end.x),
        float_word(end.y),
        float_word(end.z),
        float_word(normal.x),
        float_word(normal.y),
        float_word(normal.z),
        float_word(plane.dist),
        flag_word(line.all_solid),
        flag_word(line.start_solid),
        flag_word(line.in_open),
        flag_word(line.in_water),
    ]
}

// Writes a line's words to the front of the list and answers 0, or 22 where it is too short. (One by one, and not by `give_words`: that copies them
// from a list of their own by wide moves, which wait for what was just written.)
fn give_line(line: LineTrace, out: &mut [u64]) -> u32
    ensures { written result out.new ≡ give (Calls.line_words line) out.old }
{
    if out.len() < 12 {
        return LIST_TOO_SHORT;
    }
    let words = line_words(line);
    out[0] = words[0];
    out[1] = words[1];
    out[2] = words[2];
    out[3] = words[3];
    out[4] = words[4];
    out[5] = words[5];
    out[6] = words[6];
    out[7] = words[7];
    out[8] = words[8];
    out[9] = words[9];
    out[10] = words[10];
    out[11] = words[11];
    0
}

// The whole-line trace from start to end through a hull, once the lists are long enough.
#[inline(always)]
fn line_in(
    file: &[u8],
    map: &[u32],
    hull: BspCollisionHull,
    start: Vector3,
    end: Vector3,
    out: &mut [u64],
) -> u32
    ensures { written result out.new ≡ Private.line_told file.now (Layout.walked_map map.now) hull start end out.old }
{
    match line::tracing::trace_line(file, layout::walked_map(map), hull, start, end) {
        Err(e) => e.number(),
        Ok(line) => give_line(line, out),
    }
}

// The line from the point (x, y, z) to the point (u, v, w) down the render nodes from a root on. (A call for each kind of nodes, to which the call
// goes on without coming back, and which takes all but its last list in registers: in each one loop has the registers to itself, and the kind is no
// test.)
#[inline(never)]
fn line_drawn(
    file: &[u8],
    map: &[u32],
    root: usize,
    x: f32,
    y: f32,
    z: f32,
    u: f32,
    v: f32,
    w: f32,
    out: &mut [u64],
) -> u32
    ensures { written result out.new ≡ Private.line_told file.now (Layout.walked_map map.now) (Layout.node_hull true root) (Vec.vector x y z) (Vec.vector u v w) out.old }
{
    let start = Vector3 { x, y, z };
    let end = Vector3 { x: u, y: v, z: w };
    line_in(file, map, layout::node_hull(true, root), start, end, out)
}

// The same down the clip nodes.
#[inline(never)]
fn line_clipped(
    file: &[u8],
    map: &[u32],
    root: usize,
    x: f32,
    y: f32,
    z: f32,
    u: f32,
    v: f32,
    w: f32,
    out: &mut [u64],
) -> u32
    ensures { written result out.new ≡ Private.line_told file.now (Layout.walked_map map.now) (Layout.node_hull false root) (Vec.vector x y z) (Vec.vector u v w) out.old }
{
    let start = Vector3 { x, y, z };
    let end = Vector3 { x: u, y: v, z: w };
    line_in(file, map, layout::node_hull(false, root), start, end, out)
}

// The line through a box, or why there is none: from the lists again, so that nothing is kept for it.
#[inline(never)]
fn other_line(file: &[u8], map: &[u32], hull: &[u64], segment: &[f32], out: &mut [u64]) -> u32
    ensures { written result out.new ≡ Calls.bsp_trace_line file.now map.now hull.now segment.now out.old }
{
    match layout::asked(map, hull, segment, 6, out, 12) {
        Err(e) => e.number(),
        Ok((m, h)) => {
            let start = layout::first_point(segment);
            let end = layout::second_point(segment);
            match line::tracing::trace_line(file, m, h, start, end) {
                Err(e) => e.number(),
                Ok(line) => give_line(line, out),
            }
        }
    }
}

// The whole-line trace of a segment through a hull. 22: a map of fewer than 31 words, a hull of fewer than 9, a segment of fewer than 6 floats
// or a list of fewer than 12; 20: a hull of no table.
pub fn trace_line(file: &[u8], map: &[u32], hull: &[u64], segment: &[f32], out: &mut [u64]) -> u32
    ensures { written result out.new ≡ Calls.bsp_trace_line file.now map.now hull.now segment.now out.old }
{
    if let Ok((_, h)) = layout::asked(map, hull, segment, 6, out, 12) {
        let p = layout::first_point(segment);
        let q = layout::second_point(segment);
        let its = &map[..MAP_WORDS];
        let root = h.node_id;
        let table = h.table;
        match table {
            HullTable::Render => {
                return line_drawn(file, its, root, p.x, p.y, p.z, q.x, q.y, q.z, out);
            }
            HullTable::Clip => {
                return line_clipped(file, its, root, p.x, p.y, p.z, q.x, q.y, q.z, out);
            }
            HullTable::Box => (),
        }
    }
    other_line(file, map, hull, segment, out)
}
