// Texture infos.
ghost use Rattle.std.specs.Prelude.{◌≡◌};
ghost use Rattle.format.specs.Answers.{step_of, answer_of};
ghost use Rattle.records.specs.Texinfo.{flag_at, texinfo_at, texinfo_of};

use crate::access::record;
use crate::number::read_number;
use crate::triple::read_vector;
use format::field::{Read, read_f32, read_index};
use format::reader::Reader;
use format::refusal::{Answer, Refusal};
use format::section::{BspData, BspFileSectionId};
use math::Vector3;

// `tex_id` is the file's texture number.
#[derive(Clone, Copy)]
pub struct BspTexInfo {
    pub s_vector: Vector3,
    pub s_offset: f32,
    pub t_vector: Vector3,
    pub t_offset: f32,
    pub tex_id: usize,
    pub special: bool,
}

// 0 or 1.
#[tactic(auto, unfolding(crate::specs::Texinfo::flag_at))]
fn read_flag(s: &[u8], at: usize) -> Read<bool>
    ensures { step_of result ≡ flag_at s.now at }
{
    let (n, next) = read_index(s, at, Refusal::InvalidField)?;
    match n {
        0 => Ok((false, next)),
        1 => Ok((true, next)),
        _ => Err(Refusal::InvalidField),
    }
}

// `load_texinfo`.
// Inlined: loading needs the tests alone, and there the value is then not made.
#[inline(always)]
#[tactic(auto, unfolding(crate::specs::Texinfo::texinfo_at, crate::specs::Texinfo::texinfo_end_at))]
pub fn read_texinfo(s: &[u8], at: usize, texture_count: u32) -> Read<BspTexInfo>
    ensures { step_of result ≡ texinfo_at texture_count s.now at }
{
    let (s_vector, p) = read_vector(s, at)?;
    let (s_offset, q) = read_f32(s, p)?;
    let (t_vector, t) = read_vector(s, q)?;
    let (t_offset, u) = read_f32(s, t)?;
    let (tex_id, v) = read_number(s, u, texture_count)?;
    let (special, next) = read_flag(s, v)?;
    Ok((
        BspTexInfo {
            s_vector,
            s_offset,
            t_vector,
            t_offset,
            tex_id: tex_id as usize,
            special,
        },
        next,
    ))
}

// The reader of texture infos, in a map of so many textures.
#[derive(Clone, Copy)]
struct TexinfoReader {
    texture_count: u32,
}

impl Reader for TexinfoReader {
    type Record = BspTexInfo;

    ghost reads = { λ reader. texinfo_at reader.texture_count };

    #[inline(always)]
    fn read(self, s: &[u8], at: usize) -> Read<BspTexInfo> {
        read_texinfo(s, at, self.texture_count)
    }
}

// The texture info of an index.
pub fn texinfo(s: &[u8], map: BspData, index: usize) -> Answer<BspTexInfo>
    ensures { answer_of result ≡ texinfo_of s.now map index }
{
    record(
        s,
        map,
        BspFileSectionId::TextureInfo,
        index,
        TexinfoReader {
            texture_count: map.texture_count,
        },
    )
}
