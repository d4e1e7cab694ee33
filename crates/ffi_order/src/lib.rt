// Nodes in walking order, and contents and traces taken from them, over numbers and lists that a caller lends.
// A call's lists stand one by one, as in `ffi`: the interface for C has no records.
#![tactic(auto)]

ghost use Rattle.std.specs.Prelude.{◌≡◌};
ghost use Rattle.words.specs.Words.{written};
ghost use Rattle.walk_words.specs.Layout as Layout;
ghost use Rattle.ffi_order.specs.Calls as Calls;
ghost use Rattle.ffi_order.specs.Private as Private;

use ffi_hull::layout;
use format::section::BspData;
use nodes::table::HullTable;
use order::order_nodes;
use ordered::contents::contents_in_order;
use ordered::tracing::trace_in_order;
use phys::Trace;
use walk_words::{contents_words, trace_words};
use words::{
    LIST_TOO_SHORT, MAP_WORDS, NO_SUCH_RECORD, give_number, give_words, map_of, section_in,
};

// The section of the planes, from a map record's words; the others are left empty.
fn planes_map(words: &[u32]) -> BspData
    ensures { result ≡ Private.planes_map words.now }
{
    BspData {
        planes: section_in(words, 2),
        ..BspData::default()
    }
}

// Writes the nodes of a root's tree in walking order into `list`, and their number. 22: a map of fewer than 31 words or no word for the
// number; 20: a table above 1; then the call's own refusals.
#[tactic(auto, unfolding(crate::specs::Calls::bsp_order))]
pub fn order(
    file: &[u8],
    map: &[u32],
    table: u32,
    root: u64,
    marks: &mut [u8],
    list: &mut [i32],
    out: &mut [u64],
) -> u32
    ensures { Calls.ordering result marks.new list.new out.new ≡ Calls.bsp_order file.now map.now table root marks.old list.old out.old }
{
    if map.len() < MAP_WORDS || out.is_empty() {
        return LIST_TOO_SHORT;
    }
    if 2 <= table {
        return NO_SUCH_RECORD;
    }
    let m = map_of(map);
    let kind = HullTable::of_nodes(table == 0);
    give_number(order_nodes(file, m, kind, root as usize, marks, list), out)
}

// The contents at a point, from a place of a table in walking order. 22: a map of fewer than 31 words, a point of fewer than 3 floats or a
// list of fewer than 2.
#[tactic(auto, unfolding(crate::specs::Calls::bsp_order_contents), using(crate::proofs::Laws::same_rows, words::proofs::Giving::told_given))]
pub fn contents(
    file: &[u8],
    map: &[u32],
    list: &[i32],
    root: u64,
    point: &[f32],
    out: &mut [u64],
) -> u32
    ensures { written result out.new ≡ Calls.bsp_order_contents file.now map.now list.now root point.now out.old }
{
    if map.len() < MAP_WORDS || point.len() < 3 || out.len() < 2 {
        return LIST_TOO_SHORT;
    }
    let p = layout::first_point(point);
    give_words(
        contents_in_order(file, planes_map(map), list, root as usize, p).map(contents_words),
        out,
    )
}

fn words_of(traced: (Trace, u64)) -> [u64; 17]
    ensures { result ≡ Layout.trace_words traced }
{
    let (trace, visits) = traced;
    trace_words(trace, visits)
}

// The trace of a segment, from a place of a table in walking order. 22: a map of fewer than 31 words, a segment of fewer than 6 floats or a
// list of fewer than 17.
#[tactic(auto, unfolding(crate::specs::Calls::bsp_order_trace))]
pub fn trace(
    file: &[u8],
    map: &[u32],
    list: &[i32],
    root: u64,
    segment: &[f32],
    out: &mut [u64],
) -> u32
    ensures { written result out.new ≡ Calls.bsp_order_trace file.now map.now list.now root segment.now out.old }
{
    if map.len() < MAP_WORDS || segment.len() < 6 || out.len() < 17 {
        return LIST_TOO_SHORT;
    }
    let a = layout::first_point(segment);
    let b = layout::second_point(segment);
    give_words(
        trace_in_order(file, planes_map(map), list, root as usize, a, b).map(words_of),
        out,
    )
}
