// The nodes that point walks, leaf lookups and traces enter, as words in lists that a caller lends.
// A call's lists stand one by one, as in `ffi`: the interface for C has no records.
#![tactic(auto)]

ghost use Rattle.std.specs.Prelude.{◌≡◌};
ghost use Rattle.words.specs.Words.{left};
ghost use Rattle.ffi_entered.specs.Calls as Calls;

use entered::traced::nodes_of_trace;
use entered::walked::{nodes_to_leaf, nodes_to_point};
use ffi_hull::layout;
use words::{LIST_TOO_SHORT, MAP_WORDS, give_number};

// The nodes entered on the way to the contents at a point of a hull, at the front of `list`, and their count. 22: a map of fewer than 31
// words, a hull of fewer than 9, a point of fewer than 3 floats or no word for the count; 20: a hull of no table; 22 again, last of all: a
// list of too few entries.
#[tactic(auto, unfolding(crate::specs::Calls::bsp_contents_nodes))]
pub fn contents_nodes(
    file: &[u8],
    map: &[u32],
    hull: &[u64],
    point: &[f32],
    list: &mut [u32],
    out: &mut [u64],
) -> u32
    ensures { left result list.new out.new ≡ Calls.bsp_contents_nodes file.now map.now hull.now point.now list.old out.old }
{
    match layout::asked(map, hull, point, 3, out, 1) {
        Err(e) => e.number(),
        Ok((m, h)) => {
            let p = layout::first_point(point);
            give_number(nodes_to_point(file, m, h, p, list), out)
        }
    }
}

// The same on the way to the leaf that a point is in, from a render node on.
#[tactic(auto, unfolding(crate::specs::Calls::bsp_find_leaf_nodes), using(words::proofs::Giving::counts, ffi_hull::proofs::Walked::same_leaf_table))]
pub fn find_leaf_nodes(
    file: &[u8],
    map: &[u32],
    root: u64,
    point: &[f32],
    list: &mut [u32],
    out: &mut [u64],
) -> u32
    ensures { left result list.new out.new ≡ Calls.bsp_find_leaf_nodes file.now map.now root point.now list.old out.old }
{
    if map.len() < MAP_WORDS || point.len() < 3 || out.is_empty() {
        return LIST_TOO_SHORT;
    }
    let m = layout::walked_map(map);
    let p = layout::first_point(point);
    give_number(nodes_to_leaf(file, m, root as usize, p, list), out)
}

// The same for the trace of a segment through a hull, of 6 floats. (One call for C and what it asks: `contents_box` of `ffi_boxes` has its
// shape.)
#[tactic(auto, unfolding(crate::specs::Calls::bsp_trace_nodes))]
pub fn trace_nodes(
    file: &[u8],
    map: &[u32],
    hull: &[u64],
    segment: &[f32],
    list: &mut [u32],
    out: &mut [u64],
) -> u32
    ensures { left result list.new out.new ≡ Calls.bsp_trace_nodes file.now map.now hull.now segment.now list.old out.old }
{
    match layout::asked(map, hull, segment, 6, out, 1) {
        Err(e) => e.number(),
        Ok((m, h)) => {
            let start = layout::first_point(segment);
            let end = layout::second_point(segment);
            give_number(nodes_of_trace(file, m, h, start, end, list), out)
        }
    }
}
