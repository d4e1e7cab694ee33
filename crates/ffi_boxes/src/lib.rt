// The contents that a box of points meets in a hull, as a word in a list that a caller lends.
// A call's lists stand one by one, as in `ffi`: the interface for C has no records.
#![tactic(auto)]

ghost use Rattle.std.specs.Prelude.{◌≡◌};
ghost use Rattle.words.specs.Words.{left};
ghost use Rattle.ffi_boxes.specs.Calls as Calls;

use boxes::contents_in_box;
use ffi_hull::layout;
use words::give_number;

// The set of contents that a box meets in a hull. 22: a map of fewer than 31 words, a hull of fewer than 9, bounds of fewer than 6 floats or
// no word for the set; 20: a hull of no table; then the call's own refusals. (One call for C and what it asks: `trace_nodes` of `ffi_entered`
// has its shape.)
#[tactic(auto, unfolding(crate::specs::Calls::bsp_contents_box))]
pub fn contents_box(
    file: &[u8],
    map: &[u32],
    hull: &[u64],
    bounds: &[f32],
    marks: &mut [u8],
    out: &mut [u64],
) -> u32
    ensures { left result marks.new out.new ≡ Calls.bsp_contents_box file.now map.now hull.now bounds.now marks.old out.old }
{
    match layout::asked(map, hull, bounds, 6, out, 1) {
        Err(e) => e.number(),
        Ok((m, h)) => {
            let mins = layout::first_point(bounds);
            let maxs = layout::second_point(bounds);
            give_number(contents_in_box(file, m, h, mins, maxs, marks), out)
        }
    }
}
