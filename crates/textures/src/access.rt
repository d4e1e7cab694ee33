// The accessors of textures on a map record, loaded or made by hand.
ghost use Rattle.std.specs.Prelude.{◌≡◌, ◌≤◌};
ghost use Rattle.format.specs.Answers.{answer_of};
ghost use Rattle.textures.specs.Access as Access;
ghost use Rattle.textures.specs.Group.{frame_by};
ghost use Rattle.textures.specs.Private.{first_letter};
ghost use Rattle.texture_list.specs.Kind.{lettered};
ghost use Rattle.texture_list.specs.List.{names_of};

use crate::frame::{Group, find_frame, find_static};
use crate::number::texture_number;
use crate::sound::is_sound;
use format::refusal::{Answer, Refusal};
use format::section::BspData;
use records::texinfo::{BspTexInfo, texinfo};

// The static texture of a new number.
#[tactic(auto, using(crate::proofs::Accesses::static_past, format::proofs::Chain::tests, crate::proofs::Accesses::few_textures), unfolding(crate::specs::Access::static_texture))]
pub fn static_texture(file: &[u8], map: BspData, number: u64) -> Answer<u32>
    ensures { answer_of result ≡ Access.static_texture file.now map number }
{
    if !is_sound(file, map.textures.offset, map.texture_count) {
        return Err(Refusal::Unreadable);
    }
    let number = u32::try_from(number).map_err(|_| Refusal::NoSuchRecord)?;
    find_static(file, map.textures.offset, map.texture_count, number)
}

// The frame at a place of a group of a section that reads. (How many textures there may be is asked here and in `texture_number`: the count is
// the map record's, and a struct of it with a ghost field would be made for one call. `earliest` asks it of the length of its list.)
#[tactic(auto, using(crate::proofs::Accesses::number_past, crate::proofs::Accesses::place_past))]
fn group_frame(
    s: &[u8],
    base: u32,
    count: u32,
    group: Group,
    number: u64,
    place: u64,
) -> Answer<u32>
    requires { count ≤ 2097152 }
    ensures { answer_of result ≡ frame_by (lettered (first_letter group)) (names_of s.now base) count number place }
{
    let number = u32::try_from(number).map_err(|_| Refusal::NoSuchRecord)?;
    let place = u32::try_from(place).map_err(|_| Refusal::NoSuchRecord)?;
    find_frame(s, base, count, group, number, place)
}

// The frame at a place of a group, 0 the primary and 1 the alternate one, of the texture of a new number.
#[tactic(auto, using(crate::proofs::Accesses::few_textures, format::proofs::Chain::tests), unfolding(crate::specs::Access::frame_texture))]
pub fn frame_texture(file: &[u8], map: BspData, number: u64, group: u32, place: u64) -> Answer<u32>
    ensures { answer_of result ≡ Access.frame_texture file.now map number group place }
{
    if !is_sound(file, map.textures.offset, map.texture_count) {
        return Err(Refusal::Unreadable);
    }
    let (base, count) = (map.textures.offset, map.texture_count);
    match group {
        0 => group_frame(file, base, count, Group::Primary, number, place),
        1 => group_frame(file, base, count, Group::Alternate, number, place),
        _ => Err(Refusal::NoSuchRecord),
    }
}

// A texture info with another texture number.
fn renumber(info: BspTexInfo, number: u32) -> BspTexInfo
    ensures { result ≡ Access.renumbered info number }
{
    BspTexInfo {
        tex_id: number as usize,
        ..info
    }
}

// A texture info with its texture's new number.
#[tactic(auto, using(crate::proofs::Accesses::few_textures, format::proofs::Chain::tests), unfolding(crate::specs::Access::info_at))]
fn number_info(s: &[u8], base: u32, count: u32, info: BspTexInfo) -> Answer<BspTexInfo>
    ensures { answer_of result ≡ Access.info_at s.now base count info }
{
    let id = info.tex_id;
    if (count as usize) <= id || !is_sound(s, base, count) {
        return Err(Refusal::Unreadable);
    }
    Ok(renumber(info, texture_number(s, base, count, id as u32)))
}

// The texture info of an index, with its texture's new number. A call of its own, since the tables that the number is found with lie in its
// frame, which is written to page by page: what reads another record does without them. (The parameters of the calls of `records`.)
#[inline(never)]
#[tactic(auto, using(format::proofs::Chain::steps), unfolding(crate::specs::Access::texture_info))]
pub fn texture_info(file: &[u8], map: BspData, index: usize) -> Answer<BspTexInfo>
    ensures { answer_of result ≡ Access.texture_info file.now map index }
{
    let info = texinfo(file, map, index)?;
    number_info(file, map.textures.offset, map.texture_count, info)
}
