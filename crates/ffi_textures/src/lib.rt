// The textures of a map by their new numbers and by their numbers in the file, as words in a list that a caller lends.
// A call's lists stand one by one, as in `ffi`: the interface for C has no records.
#![tactic(auto)]

ghost use Rattle.std.specs.Prelude.{◌≡◌};
ghost use Rattle.words.specs.Words.{written, left};
ghost use Rattle.ffi_textures.specs.Calls as Calls;

use texture_list::answer::BspTexture;
use texture_numbers::texture_numbers;
use textures::access::{frame_texture, static_texture};
use words::{LIST_TOO_SHORT, MAP_WORDS, give_number, give_words, map_of};

// The words of a texture: whether it is there, its name, its width and height; zeros where it is not.
fn texture_words(texture: Option<BspTexture>) -> [u64; 5]
    ensures { result ≡ Calls.texture_words texture }
{
    let Some(texture) = texture else {
        return [0; 5];
    };
    [
        1,
        texture.name_start,
        texture.name_end,
        texture.width as u64,
        texture.height as u64,
    ]
}

// The file's number of the frame at a place of a group, 0 the primary one and 1 the alternate one, of the texture of a new number. 22: a map
// of fewer than 31 words or no word for the answer.
#[tactic(auto, unfolding(crate::specs::Calls::bsp_texture_frame))]
pub fn frame(file: &[u8], map: &[u32], number: u64, group: u32, place: u64, out: &mut [u64]) -> u32
    ensures { written result out.new ≡ Calls.bsp_texture_frame file.now map.now number group place out.old }
{
    if map.len() < MAP_WORDS || out.is_empty() {
        return LIST_TOO_SHORT;
    }
    give_number(frame_texture(file, map_of(map), number, group, place), out)
}

// The file's number of the static texture of a new number. 22: a map of fewer than 31 words or no word for the answer.
// In the shape of `numbers` and `frame`: a function that takes what each asks as a closure would need clauses of its own, and they have two lines.
#[tactic(auto, unfolding(crate::specs::Calls::bsp_texture_static))]
pub fn static_number(file: &[u8], map: &[u32], number: u64, out: &mut [u64]) -> u32
    ensures { written result out.new ≡ Calls.bsp_texture_static file.now map.now number out.old }
{
    if map.len() < MAP_WORDS || out.is_empty() {
        return LIST_TOO_SHORT;
    }
    give_number(static_texture(file, map_of(map), number), out)
}

// The texture of a number in the file: 5 words. 22: a map of fewer than 31 words or a list of fewer than 5.
#[tactic(auto, using(words::proofs::Giving::told_given), unfolding(crate::specs::Calls::bsp_texture))]
pub fn texture(file: &[u8], map: &[u32], index: u64, out: &mut [u64]) -> u32
    ensures { written result out.new ≡ Calls.bsp_texture file.now map.now index out.old }
{
    if map.len() < MAP_WORDS || out.len() < 5 {
        return LIST_TOO_SHORT;
    }
    give_words(
        texture_list::section::texture(file, map_of(map), index).map(texture_words),
        out,
    )
}

// The new numbers of all textures, by their numbers in the file, at the front of `list`, and their count. 22: a map of fewer than 31 words or
// no word for the count; 22 again, last of all: a list of too few entries.
#[tactic(auto, using(words::proofs::Giving::told_given), unfolding(crate::specs::Calls::bsp_texture_numbers))]
pub fn numbers(file: &[u8], map: &[u32], list: &mut [u32], out: &mut [u64]) -> u32
    ensures { left result list.new out.new ≡ Calls.bsp_texture_numbers file.now map.now list.old out.old }
{
    if map.len() < MAP_WORDS || out.is_empty() {
        return LIST_TOO_SHORT;
    }
    give_number(texture_numbers(file, map_of(map), list), out)
}
