// The visibility rows. A row is whole exactly if its bytes, read on to the end of the visibility data, stand for all leaves. How many groups
// of eight leaves stand from a position to the end is worked out from the end on, once for each position, and noted at the first two of
// every 64 positions. A row is read up to the next note: a zero byte and its count are two positions, so no row passes both.
ghost use Rattle.std.specs.Prelude.{◌≡◌, ◌-◌, ◌%◌, ◌^◌, ◌<◌, ◌≤◌, length, drop, get_or};
ghost use Rattle.format.specs.Section.{record_count};
ghost use Rattle.format.specs.declared.section.BspFileSectionId.TheVariants as Id;
ghost use Rattle.vis.specs.Row.{row_at};
ghost use Rattle.format.specs.Answers.{answer_of};
ghost use Rattle.accept.specs.Accept as Acc;
ghost use Rattle.accept.specs.Fast as Fast;

use crate::check::check_each;
use format::refusal::{Answer, Refusal};
use format::section::{BspData, BspFileSectionId};
use records::leaf::leaf;
use vis::row::visibility_of;

// The groups from a position to the end, by its byte, the next one and the groups from the next two positions on. At the last position a
// zero byte has no count: the next byte is 0 here, and so are the groups.
fn groups_at(byte: u8, count: u8, next: u32, after: u32) -> u32
    requires { (next < 2 ^ 29) × (after < 2 ^ 29) }
    ensures { result ≡ Fast.groups_by byte count next after }
{
    if byte != 0 {
        next + 1
    } else {
        after + (count as u32)
    }
}

// A position's groups, where they are noted.
#[tactic(auto, unfolding(crate::specs::Fast::with_note))]
fn note(notes: &mut [u32; 32768], at: usize, groups: u32)
    requires { at < 1048576 }
    ensures { notes.new ≡ Fast.with_note at groups notes.old }
{
    if at % 64 < 2 {
        notes[at / 64 * 2 + at % 64] = groups;
    }
}

// A position's note.
fn noted(notes: &[u32; 32768], at: usize) -> u32
    requires { (at < 1048576) × (at % 64 < 2) }
    ensures { result ≡ get_or notes.now (Fast.note_of at) 0 }
{
    notes[at / 64 * 2 + at % 64]
}

// The notes of the visibility data.
#[tactic(auto, using(crate::proofs::Groups::noting_starts, crate::proofs::Groups::noting_more))]
fn note_groups(visibility: &[u8], notes: &mut [u32; 32768])
    requires { (length visibility.now ≤ 1048576) × (length notes.old ≡ 32768) }
    ensures { Fast.Noted visibility.now notes.new }
{
    let mut count = 0;
    let mut next = 0;
    let mut after = 0;
    for at in (0..visibility.len()).rev() {
        let byte = visibility[at];
        let groups = groups_at(byte, count, next, after);
        note(notes, at, groups);
        count = byte;
        after = next;
        next = groups;
    }
}

// The groups from an offset to the end: those up to the next note, and the note's. A step is one position or two, so that it is no `for`.
#[tactic(auto, using(crate::proofs::Groups::at_note, crate::proofs::Groups::over_literal, crate::proofs::Groups::over_run))]
fn groups_from(visibility: &[u8], notes: &[u32; 32768], offset: usize) -> usize
    requires { Fast.Notes visibility.now notes.now }
    ensures { result ≡ Fast.groups (drop offset visibility.now) }
{
    let mut at = offset;
    let mut sum = 0;
    while at < visibility.len() {
        if at % 64 < 2 {
            return sum + (noted(notes, at) as usize);
        }
        let byte = visibility[at];
        at += 1;
        if byte != 0 {
            sum += 1;
        } else {
            if visibility.len() <= at {
                return sum;
            }
            sum += visibility[at] as usize;
            at += 1;
        }
    }
    sum
}

// The row at an offset of the visibility data: all leaves but leaf 0, in groups of eight.
#[tactic(auto, using(crate::proofs::Groups::past, crate::proofs::Groups::too_few, crate::proofs::Groups::all_there))]
fn check_offset(visibility: &[u8], notes: &[u32; 32768], offset: usize, leaves: u32) -> Answer<()>
    requires { Fast.Notes visibility.now notes.now }
    ensures { answer_of result ≡ Acc.whole_row (row_at visibility.now offset leaves) }
{
    if visibility.len() < offset {
        return Err(Refusal::NotAcceptable);
    }
    let groups = groups_from(visibility, notes, offset);
    if groups < ((leaves as usize) + 6) / 8 {
        return Err(Refusal::NotAcceptable);
    }
    Ok(())
}

// The visibility row of a leaf, with the count of all leaves. The bytes come as they were answered: a refusal of theirs counts only where a leaf
// has a row.
#[tactic(auto, using(crate::proofs::Rows::no_record, crate::proofs::Rows::no_row, format::proofs::Answers::handed_on))]
fn check_row(
    file: &[u8],
    map: BspData,
    visibility: Answer<&[u8]>,
    notes: &[u32; 32768],
    index: usize,
) -> Answer<()>
    requires { (0 < index) × Fast.RowsNoted file.now map.visibility visibility notes.now }
    ensures { answer_of result ≡ Acc.row_check file.now map index }
{
    let count = map.leaves.record_count(BspFileSectionId::Leaves);
    match leaf(file, map, index)?.vis_offset {
        None => Ok(()),
        Some(offset) => check_offset(visibility?, notes, offset, count),
    }
}

// The rows of all leaves but leaf 0.
pub fn check_rows(file: &[u8], map: BspData) -> Answer<()>
    ensures { answer_of result ≡ Acc.each (Acc.row_check file.now map) (record_count Id.Leaves map.leaves - 1) 1 }
{
    let count = map.leaves.record_count(BspFileSectionId::Leaves) as usize;
    let visibility = visibility_of(file, map.visibility);
    let mut notes = [0u32; 32768];
    if let Ok(bytes) = visibility {
        note_groups(bytes, &mut notes);
    }
    check_each(1, count, |i| check_row(file, map, visibility, &notes, i))
}
