// Leaves.
ghost use Rattle.std.specs.Prelude.{◌≡◌};
ghost use Rattle.format.specs.Answers.{step_of, answer_of};
ghost use Rattle.records.specs.Leaf.{contents_at, sounds_at, up_to, leaf_at, leaf_of};

use crate::access::record;
use crate::number::read_offset;
use crate::point::read_point;
use crate::triple::Point;
use format::code::contents_of_negated_i32;
use format::contents::BspLeafContents;
use format::field::{Read, read_i32, read_u16};
use format::reader::Reader;
use format::refusal::{Answer, Refusal};
use format::section::{BspData, BspFileSectionId};

// The Rust's `sounds: [u8; 4]`.
#[derive(Clone, Copy)]
pub struct Sounds {
    pub water: u8,
    pub sky: u8,
    pub slime: u8,
    pub lava: u8,
}

#[derive(Clone, Copy)]
pub struct BspLeaf {
    pub contents: BspLeafContents,
    pub vis_offset: Option<usize>,
    pub min: Point,
    pub max: Point,
    pub facelist_id: usize,
    pub facelist_count: usize,
    pub sounds: Sounds,
}

// The contents of the code -x of an i32 x.
#[tactic(auto, unfolding(crate::specs::Leaf::contents_at))]
fn read_contents(s: &[u8], at: usize) -> Read<BspLeafContents>
    ensures { step_of result ≡ contents_at s.now at }
{
    let (x, next) = read_i32(s, at)?;
    let contents = contents_of_negated_i32(x).ok_or(Refusal::InvalidField)?;
    Ok((contents, next))
}

// The four sound bytes, as many of them as the file has: the rest are 0.
fn read_sounds(s: &[u8], at: usize) -> Sounds
    ensures { result ≡ sounds_at s.now at }
{
    let rest = s.get(at..).unwrap_or(&[]);
    let byte = |i: usize| rest.get(i).copied().unwrap_or(0);
    Sounds {
        water: byte(0),
        sky: byte(1),
        slime: byte(2),
        lava: byte(3),
    }
}

// The position after as many of the next four bytes as the file has.
fn past_sounds(s: &[u8], at: usize) -> usize
    ensures { result ≡ up_to 4 s.now at }
{
    at + s.len().saturating_sub(at).min(4)
}

// A leaf, whose sound bytes the file's end may cut short.
// Inlined: loading needs the tests alone, and there the value is then not made.
#[inline(always)]
#[tactic(auto, unfolding(crate::specs::Leaf::leaf_at, crate::specs::Leaf::leaf_end_at))]
pub fn read_leaf(s: &[u8], at: usize) -> Read<BspLeaf>
    ensures { step_of result ≡ leaf_at s.now at }
{
    let (contents, p) = read_contents(s, at)?;
    let (vis_offset, q) = read_offset(s, p)?;
    let (min, t) = read_point(s, q)?;
    let (max, u) = read_point(s, t)?;
    let (facelist_id, v) = read_u16(s, u)?;
    let (facelist_count, w) = read_u16(s, v)?;
    Ok((
        BspLeaf {
            contents,
            vis_offset: vis_offset.map(|offset| offset as usize),
            min,
            max,
            facelist_id: facelist_id as usize,
            facelist_count: facelist_count as usize,
            sounds: read_sounds(s, w),
        },
        past_sounds(s, w),
    ))
}

// The reader of leaves.
#[derive(Clone, Copy)]
pub struct LeafReader;

impl Reader for LeafReader {
    type Record = BspLeaf;

    ghost reads = { λ reader. leaf_at };

    #[inline(always)]
    fn read(self, s: &[u8], at: usize) -> Read<BspLeaf> {
        read_leaf(s, at)
    }
}

// The leaf of an index, whose 28 bytes must all be there.
pub fn leaf(s: &[u8], map: BspData, index: usize) -> Answer<BspLeaf>
    ensures { answer_of result ≡ leaf_of s.now map index }
{
    record(s, map, BspFileSectionId::Leaves, index, LeafReader)
}
