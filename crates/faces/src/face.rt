// Faces as the file has them; their texture mins and extents are worked out from other records.
ghost use Rattle.std.specs.Prelude.{◌≡◌};
ghost use Rattle.format.specs.Answers.{step_of, answer_of};
ghost use Rattle.faces.specs.Face.{side_at, styles_at, face_at, file_face_of};

use format::field::{Read, read_index, read_u8};
use format::reader::Reader;
use format::refusal::{Answer, Refusal};
use format::section::{BspData, BspFileSectionId};
use records::access::record;
use records::number::{read_count16, read_index16, read_number16, read_offset};

#[derive(Clone, Copy)]
pub enum BspFaceSide {
    Front,
    Back,
}

// The Rust's `light_styles: [u8; 4]`, as four fields, since specs and the words of a face name each.
#[derive(Clone, Copy)]
pub struct LightStyles {
    pub style_0: u8,
    pub style_1: u8,
    pub style_2: u8,
    pub style_3: u8,
}

// The Rust's `[i16; 2]`: along s and along t.
#[derive(Clone, Copy)]
pub struct TexturePair {
    pub s: i16,
    pub t: i16,
}

#[derive(Clone, Copy)]
pub struct BspFace {
    pub plane_id: usize,
    pub side: BspFaceSide,
    pub edge_id: usize,
    pub edge_count: usize,
    pub texinfo_id: usize,
    pub light_styles: LightStyles,
    pub lightmap_id: Option<usize>,
    pub texture_mins: TexturePair,
    pub extents: TexturePair,
}

// 0 or 1.
#[tactic(auto, unfolding(crate::specs::Face::side_at))]
fn read_side(s: &[u8], at: usize) -> Read<BspFaceSide>
    ensures { step_of result ≡ side_at s.now at }
{
    let (n, next) = read_index16(s, at)?;
    match n {
        0 => Ok((BspFaceSide::Front, next)),
        1 => Ok((BspFaceSide::Back, next)),
        _ => Err(Refusal::InvalidField),
    }
}

// Inlined: late in a chain of `?` the compiler takes a call for a rare one, and leaves it a call.
#[inline(always)]
#[tactic(auto, unfolding(crate::specs::Face::styles_at))]
fn read_light_styles(s: &[u8], at: usize) -> Read<LightStyles>
    ensures { step_of result ≡ styles_at s.now at }
{
    let (style_0, p) = read_u8(s, at)?;
    let (style_1, q) = read_u8(s, p)?;
    let (style_2, t) = read_u8(s, q)?;
    let (style_3, next) = read_u8(s, t)?;
    Ok((
        LightStyles {
            style_0,
            style_1,
            style_2,
            style_3,
        },
        next,
    ))
}

// A face. Its plane number and its texture info's may equal their counts; its texture mins and extents are 0 as yet.
// Inlined: loading needs the tests alone, and there the value is then not made.
#[inline(always)]
#[tactic(auto, unfolding(crate::specs::Face::face_at, crate::specs::Face::face_end_at, crate::specs::Face::face_light_at))]
pub fn read_face(s: &[u8], at: usize, plane_count: u32, texinfo_count: u32) -> Read<BspFace>
    ensures { step_of result ≡ face_at plane_count texinfo_count s.now at }
{
    let (plane_id, p) = read_number16(s, at, plane_count)?;
    let (side, q) = read_side(s, p)?;
    let (edge_id, t) = read_index(s, q, Refusal::InvalidField)?;
    let (edge_count, u) = read_count16(s, t, 3)?;
    let (texinfo_id, v) = read_number16(s, u, texinfo_count)?;
    let (light_styles, w) = read_light_styles(s, v)?;
    let (lightmap_id, next) = read_offset(s, w)?;
    Ok((
        BspFace {
            plane_id: plane_id as usize,
            side,
            edge_id: edge_id as usize,
            edge_count: edge_count as usize,
            texinfo_id: texinfo_id as usize,
            light_styles,
            lightmap_id: lightmap_id.map(|id| id as usize),
            texture_mins: TexturePair { s: 0, t: 0 },
            extents: TexturePair { s: 0, t: 0 },
        },
        next,
    ))
}

// The reader of faces, in a map of so many planes and texture infos.
#[derive(Clone, Copy)]
pub struct FaceReader {
    pub plane_count: u32,
    pub texinfo_count: u32,
}

impl Reader for FaceReader {
    type Record = BspFace;

    ghost reads = { λ reader. face_at reader.plane_count reader.texinfo_count };

    #[inline(always)]
    fn read(self, s: &[u8], at: usize) -> Read<BspFace> {
        read_face(s, at, self.plane_count, self.texinfo_count)
    }
}

// The face of an index, with texture mins and extents of 0.
pub fn file_face(s: &[u8], map: BspData, index: usize) -> Answer<BspFace>
    ensures { answer_of result ≡ file_face_of s.now map index }
{
    let reader = FaceReader {
        plane_count: map.planes.record_count(BspFileSectionId::Planes),
        texinfo_count: map.texinfo.record_count(BspFileSectionId::TextureInfo),
    };
    record(s, map, BspFileSectionId::Faces, index, reader)
}
