// The tree check, as words in lists that a caller lends.
// A call's lists stand one by one, as in `ffi`: the interface for C has no records.
#![tactic(auto)]

ghost use Rattle.std.specs.Prelude.{◌≡◌};
ghost use Rattle.words.specs.Words.{left};
ghost use Rattle.ffi_tree.specs.Calls as Calls;

use nodes::table::HullTable;
use words::{LIST_TOO_SHORT, MAP_WORDS, NO_SUCH_RECORD, give_number, map_of};

// The tree check from a root of a node table: the tree's height. 22: a map of fewer than 31 words or no word for the height; 20: a table
// above 2.
#[tactic(auto, unfolding(crate::specs::Calls::bsp_tree_check))]
pub fn tree_check(
    file: &[u8],
    map: &[u32],
    table: u32,
    root: u64,
    marks: &mut [u8],
    out: &mut [u64],
) -> u32
    ensures { left result marks.new out.new ≡ Calls.bsp_tree_check file.now map.now table root marks.old out.old }
{
    if map.len() < MAP_WORDS || out.is_empty() {
        return LIST_TOO_SHORT;
    }
    match HullTable::numbered(u64::from(table)) {
        None => NO_SUCH_RECORD,
        Some(t) => give_number(
            tree::tree_check(file, map_of(map), t, root as usize, marks),
            out,
        ),
    }
}
