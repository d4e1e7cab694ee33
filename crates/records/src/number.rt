// Fields that are numbers and are tested as they are read.
ghost use Rattle.std.specs.Prelude.{◌≡◌};
ghost use Rattle.format.specs.Answers.{step_of};
ghost use Rattle.records.specs.Number.{index16_at, number_at, number16_at, count_at, offset_at};

use format::field::{Read, read_i16, read_i32, read_index};
use format::refusal::Refusal;

// An i16 that is not negative.
#[tactic(auto, unfolding(crate::specs::Number::index16_at))]
pub fn read_index16(s: &[u8], at: usize) -> Read<u32>
    ensures { step_of result ≡ index16_at s.now at }
{
    let (x, next) = read_i16(s, at)?;
    if x < 0 {
        return Err(Refusal::InvalidField);
    }
    Ok((x as u32, next))
}

// An i16 from 0 to `most`.
#[tactic(auto, unfolding(crate::specs::Number::number16_at))]
pub fn read_number16(s: &[u8], at: usize, most: u32) -> Read<u32>
    ensures { step_of result ≡ number16_at most s.now at }
{
    let (n, next) = read_index16(s, at)?;
    if most < n {
        return Err(Refusal::InvalidField);
    }
    Ok((n, next))
}

// An i32 from 0 to `most`. One function for this and the i16, which is told the reader, would be no plainer.
#[tactic(auto, unfolding(crate::specs::Number::number_at))]
pub fn read_number(s: &[u8], at: usize, most: u32) -> Read<u32>
    ensures { step_of result ≡ number_at most s.now at }
{
    let (n, next) = read_index(s, at, Refusal::InvalidField)?;
    if most < n {
        return Err(Refusal::InvalidField);
    }
    Ok((n, next))
}

// An i16 of at least `least`.
#[tactic(auto, unfolding(crate::specs::Number::count_at))]
pub fn read_count16(s: &[u8], at: usize, least: u32) -> Read<u32>
    ensures { step_of result ≡ count_at least s.now at }
{
    let (n, next) = read_index16(s, at)?;
    if n < least {
        return Err(Refusal::InvalidField);
    }
    Ok((n, next))
}

// An i32 that is an offset, or -1 for none.
#[tactic(auto, unfolding(crate::specs::Number::offset_at, crate::specs::Number::offset_of))]
pub fn read_offset(s: &[u8], at: usize) -> Read<Option<u32>>
    ensures { step_of result ≡ offset_at s.now at }
{
    let (x, next) = read_i32(s, at)?;
    if x < -1 {
        return Err(Refusal::InvalidField);
    }
    Ok((u32::try_from(x).ok(), next))
}
