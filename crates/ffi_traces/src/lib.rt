// Traces, as words in a list that a caller lends.
// A call's lists stand one by one, as in `ffi`: the interface for C has no records.
#![tactic(auto)]

ghost use Rattle.std.specs.Prelude.{◌≡◌, ◌≤◌, length};
ghost use Rattle.format.specs.Answer.{mapped};
ghost use Rattle.words.specs.Words.{written, given};
ghost use Rattle.walk.specs.Walk.{with_visits};
ghost use Rattle.walk.specs.Tracing as Tracing;
ghost use Rattle.nodes.specs.Fast as Fast;
ghost use Rattle.hull.specs.Traces as Traces;
ghost use Rattle.ffi_traces.specs.Layout as Layout;
ghost use Rattle.ffi_traces.specs.Calls as Calls;

use ffi_hull::layout;
use format::refusal::Answer;
use hull::tracing::{Went, plane_met, trace_at_once, trace_way};
use math::Vector3;
use nodes::table::{Tables, tables_of};
use walk_words::{boundary_words, parts_words};
use words::give;

// The words of the end of a trace that is handed on by numbers: its plane is read by its number. (`kind_words` of `walk_words` takes the end as a
// record; here none is made.)
#[inline(always)]
fn met_words(file: &[u8], t: Tables, part: Went) -> [u64; 7]
    ensures { result ≡ Layout.kind_words (Traces.end_of file.now t part).kind }
{
    if part.met {
        return boundary_words(part.ratio, plane_met(file, t, part.plane, part.front));
    }
    [0; 7]
}

#[inline(always)]
fn went_words(file: &[u8], t: Tables, from: Vector3, part: Went) -> [u64; 17]
    ensures { result ≡ Layout.trace_words (Traces.went_trace file.now t (Traces.at_start from) part, part.visits) }
{
    parts_words(
        part.visits,
        part.contents,
        part.start_solid,
        from,
        0.0,
        part.end,
        met_words(file, t, part),
    )
}

// What a call leaves of what a trace comes to, so that the trace's record is not made.
#[inline(always)]
fn give_way(file: &[u8], t: Tables, start: Vector3, way: Answer<Went>, out: &mut [u64]) -> u32
    requires { 17 ≤ length out.old }
    ensures { written result out.new ≡ given (mapped Layout.trace_words (Traces.way_answer file.now t (Traces.at_start start) way)) out.old }
{
    match way {
        Err(e) => e.number(),
        Ok(part) => give(&went_words(file, t, start, part), out),
    }
}

// The trace record by record: a box, and where the file does not have all records. (A call: docs/DECISIONS.md 105. What it is handed is a copy, so
// that nothing is kept for it over the other way.)
#[inline(never)]
fn other_trace(
    file: &[u8],
    t: Tables,
    root: usize,
    start: Vector3,
    end: Vector3,
    out: &mut [u64],
) -> u32
    requires { 17 ≤ length out.old }
    ensures { written result out.new ≡ given (mapped Layout.trace_words (with_visits (Tracing.trace (Fast.table file.now t) root start end))) out.old }
{
    give_way(file, t, start, trace_way(file, t, root, start, end), out)
}

// The trace of a segment through a hull. 22: a map of fewer than 31 words, a hull of fewer than 9, a segment of fewer than 6 floats or a
// list of fewer than 17; 20: a hull of no table.
pub fn trace(file: &[u8], map: &[u32], hull: &[u64], segment: &[f32], out: &mut [u64]) -> u32
    ensures { written result out.new ≡ Calls.bsp_trace file.now map.now hull.now segment.now out.old }
{
    match layout::asked(map, hull, segment, 6, out, 17) {
        Err(e) => e.number(),
        Ok((m, h)) => {
            let t = tables_of(m, h.table, h.mins, h.maxs);
            let start = layout::first_point(segment);
            let end = layout::second_point(segment);
            match trace_at_once(file, t, h.node_id, start, end) {
                Some(way) => give_way(file, t, start, way, out),
                None => other_trace(file, t, h.node_id, start, end, out),
            }
        }
    }
}
