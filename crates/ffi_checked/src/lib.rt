// The tree check of a hull, as words in lists that a caller lends: the hull with the number of nodes and the height of its root's tree.
// A call's lists stand one by one, as in `ffi`: the interface for C has no records.
#![tactic(auto)]

ghost use Rattle.std.specs.Prelude.{◌≡◌};
ghost use Rattle.words.specs.Words.{left};
ghost use Rattle.format.specs.Answers.{answer_of};
ghost use Rattle.ffi_hull.specs.Layout.{hull_from};
ghost use Rattle.ffi_checked.specs.Calls as Calls;

use ffi_hull::layout;
use format::refusal::{Answer, Refusal};
use hull::collision::{BspCollisionHull, check_hull};
use nodes::table::HullTable;
use words::{LIST_TOO_SHORT, MAP_WORDS, give_words, map_of, word_at_u64};

// The hull of a hull's words, with all its fields. 20: its table is above 2.
#[tactic(auto, unfolding(nodes::specs::Tables::table_numbered, ffi_hull::specs::Layout::hull_from))]
fn hull_from(words: &[u64]) -> Answer<BspCollisionHull>
    ensures { answer_of result ≡ hull_from words.now }
{
    match HullTable::numbered(word_at_u64(words, 0)) {
        Some(table) => Ok(layout::hull_in(table, words)),
        None => Err(Refusal::NoSuchRecord),
    }
}

// The hull with the size of its root's tree, by the tree check, with one lent mark for each node of its table. 22: a map of fewer than 31
// words, a hull of fewer than 9 or a list of fewer than 11; 20: a hull of no table; then as the tree check, which leaves the marks.
#[tactic(auto, using(words::proofs::Giving::told_given), unfolding(crate::specs::Calls::bsp_hull_check))]
pub fn hull_check(file: &[u8], map: &[u32], hull: &[u64], marks: &mut [u8], out: &mut [u64]) -> u32
    ensures { left result marks.new out.new ≡ Calls.bsp_hull_check file.now map.now hull.now marks.old out.old }
{
    if map.len() < MAP_WORDS || hull.len() < layout::HULL_ASKED || out.len() < layout::HULL_WORDS {
        return LIST_TOO_SHORT;
    }
    match hull_from(hull) {
        Err(e) => e.number(),
        Ok(h) => give_words(
            check_hull(file, map_of(map), h, marks).map(layout::hull_words),
            out,
        ),
    }
}
