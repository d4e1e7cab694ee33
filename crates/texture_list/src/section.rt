// The list of textures: its offsets, its headers, and where reading it stops; a texture by its number in the file.
// The file, the start of the section and the number of its textures stay three parameters: each definition takes the three, so with a struct
// of them each clause would name a field (`self.now.s.now`, `self.now.base`) in the place of a parameter.
ghost use Rattle.std.specs.Prelude.{◌≡◌, ◌+◌, ◌*◌, ◌/◌};
ghost use Rattle.format.specs.Answers.{step_of, answer_of};
ghost use Rattle.format.specs.Step.{and_then};
ghost use Rattle.sections.specs.Answers.{position_step};
ghost use Rattle.records.specs.Number.{offset_at};
ghost use Rattle.texture_list.specs.List.{stop_of, pictures_at, texture_at, listed_at, listed, textures_at};
ghost use Rattle.texture_list.specs.Texture as Texture;

use crate::answer::BspTexture;
use crate::name::{Header, is_ascii, number_of, read_name};
use format::field::{Read, read_u32};
use format::reader::Reader;
use format::refusal::{Answer, Refusal};
use format::section::BspData;
use records::number::read_offset;
use sections::row::read_records;

// Where reading so many bytes stops, after a seek.
#[tactic(auto, unfolding(crate::specs::List::stop_of))]
fn stop(s: &[u8], at: usize, size: usize) -> usize
    ensures { result ≡ stop_of s.now at size }
{
    at + size.min(s.len().saturating_sub(at))
}

// How many bytes the fourth picture has: its sides are an eighth of the first one's.
fn fourth_size(width: u32, height: u32) -> usize
    ensures { result ≡ (width / 8) * (height / 8) }
{
    ((width / 8) as usize) * ((height / 8) as usize)
}

// The offsets of the four pictures, and where reading the fourth stops.
#[tactic(auto, using(format::proofs::Chain::steps, sections::proofs::Chain::position_no), unfolding(crate::specs::List::pictures_at))]
fn read_pictures(s: &[u8], at: usize, header: Header, width: u32, height: u32) -> Answer<usize>
    ensures { position_step result ≡ pictures_at width height s.now (header.base + header.offset) at }
{
    let (_, p) = read_u32(s, at)?;
    let (_, q) = read_u32(s, p)?;
    let (_, t) = read_u32(s, q)?;
    let (fourth, _) = read_u32(s, t)?;
    let start = header.start() + (fourth as usize);
    Ok(stop(s, start, fourth_size(width, height)))
}

// `load_texture`: where reading it stops.
#[tactic(auto, using(format::proofs::Chain::steps, format::proofs::Chain::tests, sections::proofs::Chain::position_no), unfolding(crate::specs::List::texture_at))]
fn read_texture(s: &[u8], header: Header) -> Answer<usize>
    ensures { position_step result ≡ texture_at s.now (header.base + header.offset) }
{
    let at = header.start();
    if !is_ascii(s, at) {
        return Err(Refusal::TextureNameNotAscii);
    }
    let (width, p) = read_u32(s, at + 16)?;
    let (height, q) = read_u32(s, p)?;
    read_pictures(s, q, header, width, height)
}

// The texture whose offset stands at a position of the list; an absent one leaves reading where it was.
#[tactic(auto, using(format::proofs::Chain::steps, sections::proofs::Chain::position_no, crate::proofs::Offsets::present), unfolding(crate::specs::List::listed_at))]
pub fn read_listed(s: &[u8], base: u32, at: usize, end: usize) -> Answer<usize>
    ensures { position_step result ≡ listed_at s.now base at end }
{
    let (offset, _) = read_offset(s, at)?;
    match offset {
        None => Ok(end),
        Some(offset) => read_texture(s, Header { base, offset }),
    }
}

// So many textures, from the first of the list on.
#[tactic(auto, using(crate::proofs::Walk::all_listed, crate::proofs::Walk::one_listed, crate::proofs::Walk::none_listed, crate::proofs::Walk::handed_position))]
fn read_list(s: &[u8], base: u32, count: u32, end: usize) -> Answer<usize>
    ensures { position_step result ≡ listed s.now base count (base + 4) end }
{
    let mut end = end;
    for i in 0..count {
        end = read_listed(s, base, (base as usize) + 4 + 4 * (i as usize), end)?;
    }
    Ok(end)
}

// The reader of the offsets of textures.
#[derive(Clone, Copy)]
struct OffsetReader;

impl Reader for OffsetReader {
    type Record = Option<u32>;

    ghost reads = { λ reader. offset_at };

    #[inline(always)]
    fn read(self, s: &[u8], at: usize) -> Read<Option<u32>> {
        read_offset(s, at)
    }
}

// The offsets, and then the textures: where reading stops.
#[tactic(auto, using(format::proofs::Chain::steps, sections::proofs::Chain::position_no), unfolding(crate::specs::List::textures_at))]
pub fn read_textures(s: &[u8], base: u32, count: u32) -> Answer<usize>
    ensures { position_step result ≡ textures_at s.now base count }
{
    let end = read_records(s, (base as usize) + 4, count, OffsetReader)?;
    read_list(s, base, count, end)
}

// A header that reads as on loading: the texture's name, width and height.
#[tactic(auto, using(format::proofs::Chain::steps), unfolding(crate::specs::Texture::texture_header_at))]
fn read_header(s: &[u8], header: Header) -> Read<BspTexture>
    ensures { step_of result ≡ Texture.texture_header_at s.now (header.base + header.offset) }
{
    read_texture(s, header)?;
    let (width, p) = read_u32(s, header.start() + 16)?;
    let (height, next) = read_u32(s, p)?;
    let name = read_name(s, header);
    Ok((
        BspTexture {
            name_start: number_of(&name[..8]),
            name_end: number_of(&name[8..]),
            width,
            height,
        },
        next,
    ))
}

// The texture whose offset stands at a position of the list, if there is one.
fn read_numbered(s: &[u8], base: u32, at: usize) -> Read<Option<BspTexture>>
    ensures { step_of result ≡ and_then (offset_at s.now at) (λ offset p. Texture.texture_by s.now base offset p) }
{
    let (offset, next) = read_offset(s, at)?;
    let Some(offset) = offset else {
        return Ok((None, next));
    };
    let (texture, next) = read_header(s, Header { base, offset })?;
    Ok((Some(texture), next))
}

// The texture of a number in the file, if it is there. Any refusal of its header stands for 23.
#[tactic(auto, using(format::proofs::Chain::tests, crate::proofs::Reading::reads), unfolding(crate::specs::Texture::listed_texture))]
pub fn texture(file: &[u8], map: BspData, index: u64) -> Answer<Option<BspTexture>>
    ensures { answer_of result ≡ Texture.texture_of file.now map index }
{
    if (map.texture_count as u64) <= index {
        return Err(Refusal::NoSuchRecord);
    }
    if 2097152 < map.texture_count {
        return Err(Refusal::Unreadable);
    }
    let base = map.textures.offset;
    read_numbered(file, base, (base as usize) + 4 + 4 * (index as usize))
        .map(|(texture, _)| texture)
        .map_err(|_| Refusal::Unreadable)
}
