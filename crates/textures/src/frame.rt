// Textures of the file by their new numbers: static ones, and the frames of a group.
ghost use Rattle.std.specs.Prelude.{◌≡◌, ◌&&◌, ◌≤◌, eqb};
ghost use Rattle.textures.specs.Count.{lowest};
ghost use Rattle.format.specs.Answers.{answer_of};
ghost use Rattle.textures.specs.Group.{within, static_by, frame_by};
ghost use Rattle.texture_list.specs.Kind.{lettered, grouped, is_frame, framed, frames};
ghost use Rattle.texture_list.specs.List.{names_of};
ghost use Rattle.textures.specs.Private.{first_letter};
ghost use Rattle.textures.specs.Table.{Reached, ranked};

use crate::number::{Firsts, count_static, first_of, nth_static, nth_such};
use format::refusal::{Answer, Refusal};
use texture_list::kind::{Key, Stem, key_of};

// The static texture of a new number.
pub fn find_static(s: &[u8], base: u32, count: u32, number: u32) -> Answer<u32>
    ensures { answer_of result ≡ static_by (names_of s.now base) count number }
{
    nth_static(s, base, count, number)
        .at
        .ok_or(Refusal::NoSuchRecord)
}

// Whether a name has a frame and a stem.
#[tactic(auto, using(format::proofs::Chain::tests), unfolding(texture_list::specs::Kind::is_frame))]
fn is_frame(key: Key, stem: Stem, letter: u8) -> bool
    ensures { result ≡ is_frame key stem.start stem.end letter }
{
    key.first == b'+' && key.frame == letter && stem == key.stem
}

// Whether a texture has a frame and a stem.
fn is_framed(s: &[u8], base: u32, index: u32, stem: Stem, letter: u8) -> bool
    ensures { result ≡ framed s.now base stem.start stem.end letter index }
{
    is_frame(key_of(s, base, index), stem, letter)
}

// The texture with a frame and a stem that has k such ones before it.
fn nth_frame(s: &[u8], base: u32, count: u32, stem: Stem, letter: u8, k: u32) -> Firsts
    ensures { Reached (framed s.now base stem.start stem.end letter) k count result.at result.seen }
{
    nth_such(count, k, |i| is_framed(s, base, i, stem, letter))
}

// A group of the frames of a stem, with the first of its ten letters, '0' or 'a'. (No `Kind` of `texture_list`, which has all animated textures too:
// they have no ten letters.)
#[derive(Clone, Copy)]
pub enum Group {
    Primary = 48,
    Alternate = 97,
}

impl Group {
    // The first of its letters.
    #[tactic(auto, unfolding(crate::specs::Private::first_letter))]
    fn first_letter(self) -> u8
        ensures { (result ≡ first_letter self) × (result ≤ 97) }
    {
        self as u8
    }
}

// The texture at a place of a stem's group. Letter by letter.
fn at_place(s: &[u8], base: u32, count: u32, group: Group, stem: Stem, place: u32) -> Answer<u32>
    ensures { answer_of result ≡ within count (lowest (λ j. grouped (first_letter group) s.now base stem.start stem.end j && eqb (ranked (grouped (first_letter group) s.now base stem.start stem.end) (frames s.now base) count j) place) count) }
{
    let lo = group.first_letter();
    let mut left = place;
    for letter in lo..lo + 10 {
        let found = nth_frame(s, base, count, stem, letter, left);
        if let Some(at) = found.at {
            return Ok(at);
        }
        left -= found.seen;
    }
    Err(Refusal::NoSuchRecord)
}

// The texture at a place of a group of the animated texture of a new number.
#[tactic(auto, using(crate::proofs::Places::frame_of_static))]
pub fn find_frame(
    s: &[u8],
    base: u32,
    count: u32,
    group: Group,
    number: u32,
    place: u32,
) -> Answer<u32>
    ensures { answer_of result ≡ frame_by (lettered (first_letter group)) (names_of s.now base) count number place }
{
    let statics = count_static(s, base, count);
    if number < statics {
        return Err(Refusal::NoSuchRecord);
    }
    let found = first_of(s, base, count, number - statics);
    let first = found.at.ok_or(Refusal::NoSuchRecord)?;
    let key = key_of(s, base, first);
    at_place(s, base, count, group, key.stem, place)
}
