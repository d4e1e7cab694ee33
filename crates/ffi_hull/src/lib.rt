// Hulls, as words in lists that a caller lends.
#![tactic(auto)]

ghost use Rattle.std.specs.Prelude.{◌≡◌};
ghost use Rattle.words.specs.Words.{written};
ghost use Rattle.ffi_hull.specs.Calls as Calls;

use hull::collision::BspCollisionHull;
use words::{LIST_TOO_SHORT, MAP_WORDS, give_words, map_of};

pub mod layout;

// (A call's lists and numbers stand one by one, as in C.)

// The hull of a model. 22: a map of fewer than 31 words or a list of fewer than 11.
pub fn hull_of_model(file: &[u8], map: &[u32], model: u64, index: u64, hull: &mut [u64]) -> u32
    ensures { written result hull.new ≡ Calls.bsp_hull file.now map.now model index hull.old }
{
    if map.len() < MAP_WORDS || hull.len() < layout::HULL_WORDS {
        return LIST_TOO_SHORT;
    }
    give_words(
        hull::collision::hull(file, map_of(map), model as usize, index as usize).map(
            layout::hull_words,
        ),
        hull,
    )
}

// The hull of a box: mins, then maxs. 22: bounds of fewer than 6 floats or a list of fewer than 11.
pub fn hull_of_box(bounds: &[f32], hull: &mut [u64]) -> u32
    ensures { written result hull.new ≡ Calls.bsp_box bounds.now hull.old }
{
    if bounds.len() < 6 || hull.len() < layout::HULL_WORDS {
        return LIST_TOO_SHORT;
    }
    let mins = layout::first_point(bounds);
    let maxs = layout::second_point(bounds);
    give_words(
        BspCollisionHull::for_bounds(mins, maxs).map(layout::hull_words),
        hull,
    )
}
