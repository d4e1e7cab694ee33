// A reference into a table, a range of it, and one check after the other.
ghost use Rattle.std.specs.Prelude.{◌≡◌, ◌-◌, ◌≤◌, ◌<◌, ℕ};
ghost use Rattle.format.specs.Answers.{answer_of};
ghost use Rattle.format.specs.Section.{section_of, record_count};
ghost use Rattle.accept.specs.Accept as Acc;
ghost use Rattle.accept.specs.Fast.{ChecksAs};

use format::refusal::{Answer, Refusal};
use format::section::{BspData, BspFileSectionId};

// A reference into a table of so many records.
#[tactic(auto, unfolding(crate::specs::Accept::inside))]
pub fn inside(index: usize, count: u32) -> Answer<()>
    ensures { answer_of result ≡ Acc.inside index count }
{
    if index < (count as usize) {
        return Ok(());
    }
    Err(Refusal::NotAcceptable)
}

// A range of a table of so many records: start plus count at most the table's size.
#[tactic(auto, unfolding(crate::specs::Accept::within))]
pub fn within(first: usize, count: usize, total: u32) -> Answer<()>
    ensures { answer_of result ≡ Acc.within first count total }
{
    let size = total as usize;
    if size < count {
        return Err(Refusal::NotAcceptable);
    }
    if size - count < first {
        return Err(Refusal::NotAcceptable);
    }
    Ok(())
}

// The checks of the numbers from one up to another, each by `check`: the first refusal.
#[tactic(auto, using(crate::proofs::Checks::done, crate::proofs::Checks::more, crate::proofs::Checks::stop, format::proofs::Answers::handed_on))]
pub fn check_each<F: Fn(usize) -> Answer<()>>(first: usize, end: usize, check: F) -> Answer<()>
    requires { (i : ℕ) → first ≤ i → i < end → F.pre check i }
    ensures { (one : ℕ → Acc.Check) → ChecksAs (F.post check) one → answer_of result ≡ Acc.each one (end - first) first }
{
    for i in first..end {
        check(i)?;
    }
    Ok(())
}

// The checks of all records of a section.
pub fn check_records<F: Fn(usize) -> Answer<()>>(
    map: BspData,
    id: BspFileSectionId,
    check: F,
) -> Answer<()>
    requires { (i : ℕ) → i < record_count id (section_of id map) → F.pre check i }
    ensures { (one : ℕ → Acc.Check) → ChecksAs (F.post check) one → answer_of result ≡ Acc.each one (record_count id (section_of id map)) 0 }
{
    check_each(0, map.section(id).record_count(id) as usize, check)
}
