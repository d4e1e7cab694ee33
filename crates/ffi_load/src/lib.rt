// Loading a file, its map record as words in a list that a caller lends.
#![tactic(auto)]

ghost use Rattle.std.specs.Prelude.{◌≡◌};
ghost use Rattle.words.specs.Words.{written};
ghost use Rattle.ffi_load.specs.Calls as Calls;

use words::{LIST_TOO_SHORT, MAP_WORDS};

// The 31 words of a file's map record. 22: a list of fewer than 31 words.
#[tactic(auto, unfolding(crate::specs::Calls::bsp_load))]
pub fn load(file: &[u8], map: &mut [u32]) -> u32
    ensures { written result map.new ≡ Calls.bsp_load file.now map.old }
{
    if map.len() < MAP_WORDS {
        return LIST_TOO_SHORT;
    }
    match load::load(file) {
        Err(e) => e.number(),
        Ok(data) => words::give_u32(&words::map_words(data), map),
    }
}
