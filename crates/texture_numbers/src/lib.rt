// The new numbers of all textures of a map, in one call.
#![tactic(auto)]

ghost use Rattle.std.specs.Prelude.{◌≡◌, ◌≤◌, ◌<◌, ◌+◌, cond, eqb, length, get_or};
ghost use Rattle.format.specs.Listed.{listed, into};
ghost use Rattle.textures.specs.Count.{count, values_below};
ghost use Rattle.format.specs.Answers.{answer_of};
ghost use Rattle.texture_numbers.specs.Numbers.{texture_numbers};
ghost use Rattle.texture_numbers.specs.Renumber.{has_none, number_in, Led};

use format::refusal::Answer;
use format::section::BspData;
use textures::earliest::{NONE, earliest_textures};

// How many textures are static. (How long the list may be is asked here and below: it is the caller's, and a struct of it would be made for one
// call.)
fn count_static(list: &[u32]) -> u32
    requires { length list.now ≤ 2097152 }
    ensures { result ≡ count (has_none list.now) (length list.now) }
{
    list.iter().filter(|first| **first == NONE).count() as u32
}

// The new number of a texture, where `first` is the first one with its stem: so many static textures and firsts are before it, and all textures
// before it have their numbers.
#[tactic(auto, using(format::proofs::Chain::tests))]
fn number_of(list: &[u32], first: u32, index: u32, before: u32, statics: u32, firsts: u32) -> u32
    requires { (statics + firsts < 4294967296) × ((first ≡ 4294967295 → ⊥) → first < length list.now) }
    ensures { result ≡ cond (eqb first 4294967295) before (cond (eqb first index) (statics + firsts) (get_or list.now first 0)) }
{
    if first == NONE {
        return before;
    }
    if first == index {
        return statics + firsts;
    }
    list[first as usize]
}

// Puts the new number of each texture where the first one with its stem stands.
#[tactic(auto, using(crate::proofs::Numbering::starts, crate::proofs::Numbering::first_inside, crate::proofs::Numbering::counts_none, crate::proofs::Numbering::counts_first, textures::proofs::Firsts::starts_at, textures::proofs::Firsts::count_below))]
fn number_all(list: &mut [u32])
    requires { (length list.old ≤ 2097152) × Led list.old }
    ensures { list.new ≡ values_below (number_in list.old) (length list.old) }
{
    let statics = count_static(list);
    let mut before = 0;
    let mut firsts = 0;
    for i in 0..list.len() {
        let first = list[i];
        let number = number_of(list, first, i as u32, before, statics, firsts);
        before += u32::from(first == NONE);
        firsts += u32::from(first == i as u32);
        list[i] = number;
    }
}

// The new number of each texture, by its number in the file, at the front of a lent list, whose other entries are kept. 23 where the section
// does not read, then 22; a refusal writes nothing.
#[tactic(auto, using(crate::proofs::Listing::few_found, crate::proofs::Listing::led_found, crate::proofs::Listing::numbered))]
pub fn texture_numbers(file: &[u8], map: BspData, list: &mut [u32]) -> Answer<u32>
    ensures { listed (answer_of result) list.new ≡ into (texture_numbers file.now map) list.old }
{
    let count = earliest_textures(file, map, list)?;
    number_all(&mut list[..count as usize]);
    Ok(count)
}
