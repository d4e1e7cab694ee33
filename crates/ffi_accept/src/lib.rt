// Whole-map acceptance, as a number.
#![tactic(auto)]

ghost use Rattle.std.specs.Prelude.{◌≡◌};
ghost use Rattle.words.specs.Words.{written};
ghost use Rattle.ffi_accept.specs.Calls as Calls;

use words::{LIST_TOO_SHORT, MAP_WORDS, map_of};

// Whether a map may go on the rota: 0, or why not. 22: a map of fewer than 31 words, marks untouched, or too few marks.
#[tactic(auto, unfolding(crate::specs::Calls::bsp_accept))]
pub fn accept(file: &[u8], map: &[u32], marks: &mut [u8]) -> u32
    ensures { written result marks.new ≡ Calls.bsp_accept file.now map.now marks.old }
{
    if map.len() < MAP_WORDS {
        return LIST_TOO_SHORT;
    }
    match accept::accept(file, map_of(map), marks) {
        Ok(()) => 0,
        Err(why) => why.number(),
    }
}
