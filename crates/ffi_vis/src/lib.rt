// The leaves that can be seen from a leaf, as words in lists that a caller lends.
// A call's lists stand one by one, as in `ffi`: the interface for C has no records.
#![tactic(auto)]

ghost use Rattle.std.specs.Prelude.{◌≡◌};
ghost use Rattle.words.specs.Words.{left};
ghost use Rattle.ffi_vis.specs.Calls as Calls;

use words::{LIST_TOO_SHORT, MAP_WORDS, give_number, map_of};

// The leaves that can be seen from a leaf, at the front of `list`, and their count. 22: a map of fewer than 31 words or no word for the
// count; 22 again, last of all: a list of too few entries.
#[tactic(auto, unfolding(crate::specs::Calls::bsp_pvs))]
pub fn pvs(
    file: &[u8],
    map: &[u32],
    leaf: u64,
    leaf_count: u64,
    list: &mut [u32],
    out: &mut [u64],
) -> u32
    ensures { left result list.new out.new ≡ Calls.bsp_pvs file.now map.now leaf leaf_count list.old out.old }
{
    if map.len() < MAP_WORDS || out.is_empty() {
        return LIST_TOO_SHORT;
    }
    give_number(
        vis::get_pvs(file, map_of(map), leaf as usize, leaf_count as usize, list),
        out,
    )
}
