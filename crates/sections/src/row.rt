// Sections whose fields are not tested as they are read: rows of records, and bytes that are kept as they are.
ghost use Rattle.std.specs.Prelude.{◌≡◌};
ghost use Rattle.sections.specs.Answers.{position_step};
ghost use Rattle.sections.specs.Records as Records;
ghost use Rattle.sections.specs.Records.{plain, plain_section, blob};

use crate::position::check_end_position;
use format::reader::Reader;
use format::refusal::{Answer, Refusal};
use format::section::{BspFileSection, BspFileSectionId};

// So many bytes whose fields are not tested. None are there everywhere.
pub fn read_plain(s: &[u8], at: usize, bytes: usize) -> Answer<usize>
    ensures { position_step result ≡ plain s.now at bytes }
{
    if bytes == 0 {
        return Ok(at);
    }
    match at.checked_add(bytes) {
        Some(end) if end <= s.len() => Ok(end),
        _ => Err(Refusal::EndOfFile),
    }
}

// So many records in a row from a position on, each read by `reader`: the position after the last, or the first refusal.
pub fn read_records<R: Reader + Copy>(s: &[u8], at: usize, count: u32, reader: R) -> Answer<usize>
    ensures { position_step result ≡ Records.records (R.reads reader) s.now count at }
{
    let mut p = at;
    for _ in 0..count {
        (_, p) = reader.read(s, p)?;
    }
    Ok(p)
}

// A section of records, each read by `reader`, and the section's end.
#[tactic(auto, unfolding(crate::specs::Records::section))]
pub fn check_records<R: Reader + Copy>(
    s: &[u8],
    section: BspFileSection,
    id: BspFileSectionId,
    reader: R,
) -> Answer<usize>
    ensures { position_step result ≡ Records.section (R.reads reader) id s.now section }
{
    let end = read_records(s, section.offset as usize, section.record_count(id), reader)?;
    check_end_position(section, end)
}

// A section of records whose fields are not tested: one test of the file's length, and the section's end.
#[tactic(auto, unfolding(crate::specs::Records::plain_section))]
pub fn check_plain(s: &[u8], section: BspFileSection, id: BspFileSectionId) -> Answer<usize>
    ensures { position_step result ≡ plain_section id s.now section }
{
    let bytes = (section.record_count(id) as usize) * (id.element_size() as usize);
    let end = read_plain(s, section.offset as usize, bytes)?;
    check_end_position(section, end)
}

// Visibility or lightmap bytes: what there is of them is read, and the end is tested.
#[tactic(auto, unfolding(crate::specs::Records::blob))]
pub fn check_blob(s: &[u8], section: BspFileSection) -> Answer<usize>
    ensures { position_step result ≡ blob s.now section }
{
    let at = section.offset as usize;
    let there = s.len().saturating_sub(at);
    check_end_position(section, at + there.min(section.size as usize))
}
