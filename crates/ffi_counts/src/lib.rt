// How many records a section has, and where the entity text lies, as words in a list that a caller lends.
#![tactic(auto)]

ghost use Rattle.std.specs.Prelude.{◌≡◌};
ghost use Rattle.words.specs.Words.{written};
ghost use Rattle.ffi_counts.specs.Calls as Calls;

use format::section::BspFileSectionId;
use models::text::Part;
use words::{LIST_TOO_SHORT, MAP_WORDS, NO_SUCH_RECORD, give, give_words, map_of};

// How many records a section has. 22: a map of fewer than 31 words or an empty list; 20: a number above 14.
#[tactic(auto, unfolding(crate::specs::Calls::bsp_count))]
pub fn count(map: &[u32], section: u32, out: &mut [u64]) -> u32
    ensures { written result out.new ≡ Calls.bsp_count map.now section out.old }
{
    if map.len() < MAP_WORDS || out.is_empty() {
        return LIST_TOO_SHORT;
    }
    let data = map_of(map);
    match BspFileSectionId::numbered(section) {
        None => NO_SUCH_RECORD,
        Some(id) => give(&[data.section(id).record_count(id) as u64], out),
    }
}

// The words of a part of a file: its offset and its length.
fn part_words(part: Part) -> [u64; 2]
    ensures { result ≡ Calls.part_words part }
{
    [part.offset as u64, part.size as u64]
}

// Offset and length of the entity text. 22: a map of fewer than 31 words or a list of fewer than 2.
#[tactic(auto, using(words::proofs::Giving::told_given), unfolding(crate::specs::Calls::bsp_entities))]
pub fn entities(file: &[u8], map: &[u32], out: &mut [u64]) -> u32
    ensures { written result out.new ≡ Calls.bsp_entities file.now map.now out.old }
{
    if map.len() < MAP_WORDS || out.len() < 2 {
        return LIST_TOO_SHORT;
    }
    give_words(
        models::text::entities(file, map_of(map)).map(part_words),
        out,
    )
}
