// Little-endian fields at a position of the lent file bytes: the value and the position after it, or that the bytes end.
ghost use Rattle.std.specs.Prelude.{◌≡◌, ◌≤◌, ◌+◌, ◌-◌, ◌<◌, length, take, drop, IfOk, IfErr};
ghost use Rattle.format.specs.declared.refusal.Refusal.TheVariants.{EndOfFile};
ghost use Rattle.format.specs.Refusal.{number_of};
ghost use Rattle.format.specs.Field.{field, u8_at, u16_at, u32_at, i16_at, i32_at, f32_at, index_at};
ghost use Rattle.format.specs.Answers.{step_of};

use crate::refusal::{Answer, Refusal};

// What a reader gives: a value and the position after it, or a refusal.
pub type Read<T> = Result<(T, usize), Refusal>;

// The `N` bytes at a position, of which one test says whether they are there: loading a file is for the most part such tests.
#[inline(always)]
fn bytes_at<const N: usize>(s: &[u8], at: usize) -> Answer<[u8; N]>
    ensures ok { IfOk result (λ b. (at + N ≤ length s.now) × (b ≡ take N (drop at s.now))) }
    ensures err { IfErr result (λ e. (e ≡ EndOfFile) × (length s.now < at + N)) }
{
    match s.len().checked_sub(N) {
        Some(last) if at <= last => {
            let Some(bytes) = s[at..at + N].as_array::<N>() else {
                return Err(Refusal::EndOfFile);
            };
            Ok(*bytes)
        }
        _ => Err(Refusal::EndOfFile),
    }
}

// A reader for each width: one for all would need a trait of its own for `from_le_bytes`, and be no plainer than the three. The signed ones, the
// float's and `read_edge_index` of `records` go over these: what a word becomes is all that is in them, and a reader of a reader and a
// function would say it in as many lines.
#[tactic(auto, using(crate::proofs::Bytes::one, crate::proofs::Bytes::no_field, crate::proofs::Bytes::a_field), unfolding(crate::specs::Field::u8_at))]
pub fn read_u8(s: &[u8], at: usize) -> Read<u8>
    ensures { step_of result ≡ u8_at s.now at }
{
    let bytes = bytes_at(s, at)?;
    Ok((u8::from_le_bytes(bytes), at + 1))
}

#[tactic(auto, using(crate::proofs::Bytes::two, crate::proofs::Bytes::no_field, crate::proofs::Bytes::a_field), unfolding(crate::specs::Field::u16_at))]
pub fn read_u16(s: &[u8], at: usize) -> Read<u16>
    ensures { step_of result ≡ u16_at s.now at }
{
    let bytes = bytes_at(s, at)?;
    Ok((u16::from_le_bytes(bytes), at + 2))
}

#[tactic(auto, using(crate::proofs::Bytes::four, crate::proofs::Bytes::no_field, crate::proofs::Bytes::a_field), unfolding(crate::specs::Field::u32_at))]
pub fn read_u32(s: &[u8], at: usize) -> Read<u32>
    ensures { step_of result ≡ u32_at s.now at }
{
    let bytes = bytes_at(s, at)?;
    Ok((u32::from_le_bytes(bytes), at + 4))
}

#[tactic(auto, unfolding(crate::specs::Field::i16_at))]
pub fn read_i16(s: &[u8], at: usize) -> Read<i16>
    ensures { step_of result ≡ i16_at s.now at }
{
    let (n, next) = read_u16(s, at)?;
    Ok((n.cast_signed(), next))
}

#[tactic(auto, unfolding(crate::specs::Field::i32_at))]
pub fn read_i32(s: &[u8], at: usize) -> Read<i32>
    ensures { step_of result ≡ i32_at s.now at }
{
    let (n, next) = read_u32(s, at)?;
    Ok((n.cast_signed(), next))
}

#[tactic(auto, unfolding(crate::specs::Field::f32_at))]
pub fn read_f32(s: &[u8], at: usize) -> Read<f32>
    ensures { step_of result ≡ f32_at s.now at }
{
    let (n, next) = read_u32(s, at)?;
    Ok((float::num::from_bits(n), next))
}

// An i32 that is not negative; `negative` is the refusal of one that is.
#[tactic(auto, unfolding(crate::specs::Field::index_at))]
pub fn read_index(s: &[u8], at: usize, negative: Refusal) -> Read<u32>
    ensures { step_of result ≡ index_at (number_of negative) s.now at }
{
    let (x, next) = read_i32(s, at)?;
    if x < 0 {
        return Err(negative);
    }
    Ok((x as u32, next))
}
