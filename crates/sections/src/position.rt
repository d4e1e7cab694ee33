// The test of where reading a section ended.
ghost use Rattle.std.specs.Prelude.{◌≡◌};
ghost use Rattle.sections.specs.Position.{check_end_position};
ghost use Rattle.sections.specs.Answers.{position_step};

use format::refusal::{Answer, Refusal};
use format::section::BspFileSection;

// What was read of a section must end where the section ends.
pub fn check_end_position(section: BspFileSection, end: usize) -> Answer<usize>
    ensures { position_step result ≡ check_end_position section end }
{
    if end == (section.offset as usize) + (section.size as usize) {
        return Ok(end);
    }
    Err(Refusal::Misaligned)
}
