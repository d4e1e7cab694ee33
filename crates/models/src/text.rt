// The entity text, as a part of the lent file.
ghost use Rattle.std.specs.Prelude.{◌≡◌};
ghost use Rattle.format.specs.Answers.{answer_of};
ghost use Rattle.models.specs.Text.{through, text_end, entities_of, entity_text};

use format::refusal::{Answer, Refusal};
use format::section::BspData;

// A part of the file: where it starts, and its length.
#[derive(Clone, Copy)]
pub struct Part {
    pub offset: usize,
    pub size: usize,
}

// How many bytes there are through the first zero, or in all. (A match: with `map_or` the check does not find the proof.)
fn through(s: &[u8]) -> usize
    ensures { result ≡ through s.now }
{
    match s.iter().position(|b| *b == 0) {
        Some(k) => k + 1,
        None => s.len(),
    }
}

// The position after the first zero byte from a position on, or the file's end.
#[tactic(auto, using(crate::proofs::Texts::through_le), unfolding(crate::specs::Text::text_end))]
pub fn text_end(s: &[u8], at: usize) -> usize
    ensures { result ≡ text_end s.now at }
{
    s.get(at..).map_or(at, |rest| at + through(rest))
}

// Where the entity text lies.
#[tactic(auto, using(crate::proofs::Texts::starts), unfolding(crate::specs::Text::entities_of))]
pub fn entities(s: &[u8], map: BspData) -> Answer<Part>
    ensures { answer_of result ≡ entities_of s.now map }
{
    let offset = map.entities.offset as usize;
    if offset < s.len() {
        let size = text_end(s, offset) - offset;
        return Ok(Part { offset, size });
    }
    if map.entities.size == 0 {
        return Ok(Part { offset, size: 0 });
    }
    Err(Refusal::Unreadable)
}

// The entity text; empty where `entities` refuses.
#[tactic(auto, using(crate::proofs::Texts::text_found, crate::proofs::Texts::text_none))]
pub fn entity_text(s: &[u8], map: BspData) -> &[u8]
    ensures { result.now ≡ entity_text s.now map }
{
    let Ok(part) = entities(s, map) else {
        return &[];
    };
    s.get(part.offset..part.offset + part.size).unwrap_or(&[])
}
