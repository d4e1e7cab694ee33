// The visibility row of a leaf. A first pass learns how many leaves the row lists, and a second one writes them.
ghost use Rattle.std.specs.Prelude.{◌≡◌, ◌+◌, ◌%◌, ◌^◌, ◌≤◌, ◌<◌, min, ◌++◌, length, take, drop};
ghost use Rattle.format.specs.Answers.{answer_of};
ghost use Rattle.format.specs.Answer.{answer, mapped};
ghost use Rattle.format.specs.Listed.{listed, into};
ghost use Rattle.vis.specs.Row.{row_from, row_at, byte_leaves};
ghost use Rattle.vis.specs.Counts.{counts};
ghost use Rattle.vis.specs.Answers.{bytes_of};
ghost use Rattle.vis.specs.Pvs as Pvs;

use crate::ones::{SET_BITS, set_bits};
use format::list::copy_front;
use format::refusal::{Answer, Refusal};
use format::section::{BspFileSection, BspFileSectionId};

// The lowest `left` bits of a byte, which has eight: those for the leaves below the count, where so many leaves are left.
pub fn kept_bits(byte: u8, left: usize) -> u8
    ensures { result ≡ byte % 2 ^ min 8 left }
{
    if 8 <= left {
        return byte;
    }
    byte % (1u8 << (left as u32))
}

// Above this leaf there are no eight more whose numbers have 32 bits.
const MOST_FIRST: u32 = 4294967287;

// Lists the set bits of a byte, of which the lowest is that of the leaf `first`, past the `count` leaves that the list has, and answers how
// many it has then. Each number is written before it is known whether its bit is set, and the next one takes its place if it is not: so the
// entry after them may be written over too. Later ones are kept. (The list with the count, here and in the two below, and not the rest of the
// list from the count on: with that a row takes 6 to 70% more time. What is asked of the first leaf is no ghost field: a struct of it would be
// made anew for each byte.)
#[inline(always)]
fn put_eight(byte: u8, first: u32, count: usize, list: &mut [u32]) -> usize
    requires { (count + 8 ≤ length list.old) × (first ≤ 4294967287) }
    ensures { (result ≡ count + length (byte_leaves first byte)) × (take result list.new ≡ take count list.old ++ byte_leaves first byte) × (drop (result + 1) list.new ≡ drop (result + 1) list.old) }
{
    let mut rest = byte as usize;
    let mut at = count;
    for shift in 0..8u32 {
        list[at] = first + shift;
        at += rest % 2;
        rest = rest / 2;
    }
    at
}

// The same where the list may have room for the set bits only: as long as one is left there is room. (A function of its own beside `put_eight`:
// a number whose bit is not set may have no room here. In `put_eight` there is room, and no test in each turn. No method of the library lists the
// set bits of a byte, and a table of all bytes' leaves would be no plainer.)
#[tactic(auto, using(crate::proofs::SetBits::room_left))]
fn put_last(byte: u8, first: u32, count: usize, list: &mut [u32]) -> usize
    requires { (count + length (byte_leaves first byte) ≤ length list.old) × (first ≤ 4294967287) }
    ensures { (result ≡ count + length (byte_leaves first byte)) × (take result list.new ≡ take count list.old ++ byte_leaves first byte) × (drop (result + 1) list.new ≡ drop (result + 1) list.old) }
{
    let mut rest = byte as usize;
    let mut at = count;
    for shift in 0..8u32 {
        if rest == 0 {
            break;
        }
        list[at] = first + shift;
        at += rest % 2;
        rest = rest / 2;
    }
    at
}

// The same for the lowest `left` bits of a byte: by eight where these are all of them and the list has room for eight.
fn put_bits(byte: u8, left: usize, first: u32, count: usize, list: &mut [u32]) -> usize
    requires { (count + length (byte_leaves first (byte % 2 ^ min 8 left)) ≤ length list.old) × (first ≤ 4294967287) }
    ensures { (result ≡ count + length (byte_leaves first (byte % 2 ^ min 8 left))) × (take result list.new ≡ take count list.old ++ byte_leaves first (byte % 2 ^ min 8 left)) }
{
    if 8 <= left && 8 <= list.len() - count {
        return put_eight(byte, first, count, list);
    }
    put_last(kept_bits(byte, left), first, count, list)
}

// `copy_front` as a call: in line, where it is seen that the lists lie apart, the compiler makes it a call of `memcpy`.
#[inline(never)]
fn copy_apart(items: &[u32], list: &mut [u32])
    ensures { list.new ≡ take (length list.old) items.now ++ drop (length items.now) list.old }
{
    copy_front(items, list)
}

// Lists the leaves of a byte at the front of any list, as many as there is room for, and answers how many; the other entries are kept. The
// entry after the leaves, which `put_last` may write over, is put back. (By `put_last`, which ends with the last set bit: of a pool's bytes many
// have few and low ones.) A first leaf above `MOST_FIRST` counts as that one. A call: in line in `team` it makes a pool of many leaves slower.
#[inline(never)]
pub fn put_leaves(byte: u8, first: u32, list: &mut [u32]) -> usize
    ensures { (result ≡ min (length list.old) (length (byte_leaves (min first 4294967287) byte))) × (list.new ≡ take (length list.old) (byte_leaves (min first 4294967287) byte) ++ drop result list.old) }
{
    let first = first.min(MOST_FIRST);
    let count = byte.count_ones() as usize;
    if count < list.len() {
        let kept = list[count];
        put_last(byte, first, 0, list);
        list[count] = kept;
        return count;
    }
    let mut eight = [0; 8];
    let count = put_eight(byte, first, 0, &mut eight).min(list.len());
    copy_apart(&eight[..count], list);
    count
}

// How many leaves the row at the offset lists, by the table of the numbers of set bits. (No `for`, here and in `put_row`: the position moves
// by one byte or by two, and the leaf by as many as the bytes say, so no range goes with either. How long the data may be is asked here and of
// eight functions more, also of `team` and `accept`: of a struct with a ghost field each clause would name the bytes, two to four times.)
#[tactic(auto, using(crate::proofs::Passes::count_ended, crate::proofs::Passes::count_cut, crate::proofs::Passes::count_zeros, crate::proofs::Passes::count_done))]
fn row_length(
    table: &[u8; 256],
    visibility: &[u8],
    offset: usize,
    leaf_count: usize,
) -> Answer<usize>
    requires { (table.now ≡ counts 256 0) × (length visibility.now ≤ 1048576) × (offset ≤ length visibility.now) }
    ensures { answer_of result ≡ mapped length (row_from leaf_count 1 (drop offset visibility.now)) }
{
    let mut at = offset;
    let mut leaf = 1;
    let mut count = 0;
    while leaf < leaf_count {
        if visibility.len() <= at {
            return Err(Refusal::RowOutsideData);
        }
        let byte = visibility[at];
        at += 1;
        if byte != 0 {
            if leaf_count - leaf < 8 {
                let last = kept_bits(byte, leaf_count - leaf);
                return Ok(count + (set_bits(table, last) as usize));
            }
            count += set_bits(table, byte) as usize;
            leaf += 8;
        } else {
            if visibility.len() <= at {
                return Err(Refusal::RowOutsideData);
            }
            leaf += 8 * (visibility[at] as usize);
            at += 1;
        }
    }
    Ok(count)
}

// Writes the leaves that the row at the offset lists, which are as many as the list has entries. (No `for`: see `row_length`.)
#[tactic(auto, using(crate::proofs::Passes::some_byte, crate::proofs::Passes::some_follower, crate::proofs::Passes::write_zeros, crate::proofs::Passes::write_done))]
fn put_row(visibility: &[u8], offset: usize, leaf_count: usize, list: &mut [u32])
    requires { (length visibility.now ≤ 1048576) × (offset ≤ length visibility.now) × (mapped length (row_from leaf_count 1 (drop offset visibility.now)) ≡ answer (length list.old)) }
    ensures { answer list.new ≡ row_from leaf_count 1 (drop offset visibility.now) }
{
    let mut at = offset;
    let mut first = 1;
    let mut count = 0;
    while first < leaf_count {
        let byte = visibility[at];
        at += 1;
        if byte != 0 {
            count = put_bits(byte, leaf_count - first, first as u32, count, list);
            first += 8;
        } else {
            first += 8 * (visibility[at] as usize);
            at += 1;
        }
    }
}

// Lists the row at the offset of the visibility data.
#[tactic(auto, using(crate::proofs::Lists::row_past, crate::proofs::Lists::row_refused, crate::proofs::Lists::row_short, crate::proofs::Lists::row_listed, format::proofs::Answers::handed_answer))]
fn list_row(visibility: &[u8], offset: usize, leaf_count: usize, list: &mut [u32]) -> Answer<usize>
    requires { length visibility.now ≤ 1048576 }
    ensures { listed (answer_of result) list.new ≡ into (row_at visibility.now offset leaf_count) list.old }
{
    if visibility.len() < offset {
        return Err(Refusal::RowOutsideData);
    }
    let count = row_length(&SET_BITS, visibility, offset, leaf_count)?;
    if list.len() < count {
        return Err(Refusal::ListTooShort);
    }
    put_row(visibility, offset, leaf_count, &mut list[..count]);
    Ok(count)
}

// The bytes of the visibility section: 23 where it is above its limit or past the file's end; an empty one is never outside.
#[inline(always)]
#[tactic(auto, unfolding(crate::specs::Pvs::visibility_of))]
pub fn visibility_of(file: &[u8], section: BspFileSection) -> Answer<&[u8]>
    ensures { bytes_of result ≡ Pvs.visibility_of file.now section }
{
    if section.size == 0 {
        return Ok(&file[..0]);
    }
    if BspFileSectionId::Visibility.within_limit(section.size) {
        let start = section.offset as usize;
        let end = start + (section.size as usize);
        if end <= file.len() {
            return Ok(&file[start..end]);
        }
    }
    Err(Refusal::Unreadable)
}

// Lists the row at the offset of the visibility section.
#[tactic(auto, unfolding(crate::specs::Pvs::section_row), using(crate::proofs::Sections::few_bytes, format::proofs::Answers::handed_on))]
pub fn list_section_row(
    file: &[u8],
    section: BspFileSection,
    offset: usize,
    leaf_count: usize,
    list: &mut [u32],
) -> Answer<usize>
    ensures { listed (answer_of result) list.new ≡ into (Pvs.section_row file.now section offset leaf_count) list.old }
{
    list_row(visibility_of(file, section)?, offset, leaf_count, list)
}
