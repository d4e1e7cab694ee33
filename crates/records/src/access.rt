// The record of an index: its place in the map's section, and what a reader gives there.
ghost use Rattle.std.specs.Prelude.{◌≡◌};
ghost use Rattle.format.specs.Answers.{answer_of};
ghost use Rattle.records.specs.Access.{record_of};

use format::reader::Reader;
use format::refusal::{Answer, Refusal};
use format::section::{BspData, BspFileSectionId};

// The record of an index of a section, at its place, as `reader` reads it there; any refusal of `reader` becomes `Unreadable`.
#[tactic(auto, unfolding(crate::specs::Access::record_of))]
pub fn record<R: Reader>(
    s: &[u8],
    map: BspData,
    id: BspFileSectionId,
    index: usize,
    reader: R,
) -> Answer<R::Record>
    ensures { answer_of result ≡ record_of id (R.reads reader) s.now map index }
{
    let at = map.section(id).place(id, s.len(), index)?;
    let (record, _) = reader.read(s, at).map_err(|_| Refusal::Unreadable)?;
    Ok(record)
}
