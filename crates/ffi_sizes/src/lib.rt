// The hall's own body sizes and hulls with them, as words in lists that a caller lends.
// A call's lists stand one by one, as in `ffi`: the interface for C has no records.
#![tactic(auto)]

ghost use Rattle.std.specs.Prelude.{◌≡◌};
ghost use Rattle.words.specs.Words.{written};
ghost use Rattle.ffi_sizes.specs.Calls as Calls;

use ffi_hull::layout::{HULL_WORDS, hull_words};
use words::{LIST_TOO_SHORT, MAP_WORDS, give_words, map_of};

mod layout;

// The body sizes of a file: mins and maxs of hull 1, then of hull 2. 22: a list of fewer than 12 words; then 26 and 27.
#[tactic(auto, using(words::proofs::Giving::told_given), unfolding(crate::specs::Calls::bsp_body_sizes))]
pub fn body_sizes(bytes: &[u8], sizes: &mut [u64]) -> u32
    ensures { written result sizes.new ≡ Calls.bsp_body_sizes bytes.now sizes.old }
{
    if sizes.len() < layout::SIZES_WORDS {
        return LIST_TOO_SHORT;
    }
    give_words(sizes::parse(bytes).map(layout::sizes_words), sizes)
}

// The hull of a model with these body sizes. 22: a map of fewer than 31 words, sizes of fewer than 12 or a list of fewer than 11; then as
// the hull of a model.
#[tactic(auto, unfolding(crate::specs::Calls::bsp_hull_sized))]
pub fn hull_sized(
    file: &[u8],
    map: &[u32],
    sizes: &[u64],
    model: u64,
    index: u64,
    hull: &mut [u64],
) -> u32
    ensures { written result hull.new ≡ Calls.bsp_hull_sized file.now map.now sizes.now model index hull.old }
{
    if map.len() < MAP_WORDS || sizes.len() < layout::SIZES_WORDS || hull.len() < HULL_WORDS {
        return LIST_TOO_SHORT;
    }
    let own = layout::sizes_in(sizes);
    give_words(
        sized_hulls::hull_sized(file, map_of(map), own, model as usize, index as usize).map(
            hull_words,
        ),
        hull,
    )
}
