// Edges, the list of edges and the list of faces.
ghost use Rattle.std.specs.Prelude.{◌≡◌};
ghost use Rattle.format.specs.Answers.{step_of, answer_of};
ghost use Rattle.format.specs.Field.{u16_at};
ghost use Rattle.records.specs.Edge.{edge_at, edge_of, edge_index, edge_index_at, edgelist_of, facelist_of};

use crate::access::record;
use format::field::{Read, read_i32, read_u16};
use format::reader::Reader;
use format::refusal::Answer;
use format::section::{BspData, BspFileSectionId};

// The Rust's `vertex_ids: [u16; 2]`.
#[derive(Clone, Copy)]
pub struct BspEdge {
    pub vertex_id_0: u16,
    pub vertex_id_1: u16,
}

#[tactic(auto, unfolding(crate::specs::Edge::edge_at))]
fn read_edge(s: &[u8], at: usize) -> Read<BspEdge>
    ensures { step_of result ≡ edge_at s.now at }
{
    let (vertex_id_0, p) = read_u16(s, at)?;
    let (vertex_id_1, next) = read_u16(s, p)?;
    Ok((
        BspEdge {
            vertex_id_0,
            vertex_id_1,
        },
        next,
    ))
}

// The reader of edges.
#[derive(Clone, Copy)]
struct EdgeReader;

impl Reader for EdgeReader {
    type Record = BspEdge;

    ghost reads = { λ reader. edge_at };

    #[inline(always)]
    fn read(self, s: &[u8], at: usize) -> Read<BspEdge> {
        read_edge(s, at)
    }
}

// The edge of an index.
pub fn edge(s: &[u8], map: BspData, index: usize) -> Answer<BspEdge>
    ensures { answer_of result ≡ edge_of s.now map index }
{
    record(s, map, BspFileSectionId::Edges, index, EdgeReader)
}

#[derive(Clone, Copy)]
pub enum BspEdgeDirection {
    Forward,
    Backward,
}

#[derive(Clone, Copy)]
pub struct BspEdgeIndex {
    pub direction: BspEdgeDirection,
    pub index: usize,
}

// The entry of a number x: the edge x, or if x is negative the edge -x walked backward. `-x` of the least i32 is itself, and its
// cast to usize is 2^64 - 2^31.
#[tactic(auto, unfolding(crate::specs::Edge::edge_index))]
fn edge_index_of(x: i32) -> BspEdgeIndex
    ensures { result ≡ edge_index x }
{
    if x < 0 {
        BspEdgeIndex {
            direction: BspEdgeDirection::Backward,
            index: (x.wrapping_neg() as isize).cast_unsigned(),
        }
    } else {
        BspEdgeIndex {
            direction: BspEdgeDirection::Forward,
            index: x as usize,
        }
    }
}

// An i32 as an entry of the list of edges. (`read_f32` of `format` has its shape; the line above `read_u8` there says why.)
#[tactic(auto, unfolding(crate::specs::Edge::edge_index_at))]
fn read_edge_index(s: &[u8], at: usize) -> Read<BspEdgeIndex>
    ensures { step_of result ≡ edge_index_at s.now at }
{
    let (x, next) = read_i32(s, at)?;
    Ok((edge_index_of(x), next))
}

// The reader of the list of edges.
#[derive(Clone, Copy)]
struct EdgeIndexReader;

impl Reader for EdgeIndexReader {
    type Record = BspEdgeIndex;

    ghost reads = { λ reader. edge_index_at };

    #[inline(always)]
    fn read(self, s: &[u8], at: usize) -> Read<BspEdgeIndex> {
        read_edge_index(s, at)
    }
}

// The entry of an index of the list of edges.
pub fn edgelist(s: &[u8], map: BspData, index: usize) -> Answer<BspEdgeIndex>
    ensures { answer_of result ≡ edgelist_of s.now map index }
{
    record(s, map, BspFileSectionId::EdgeList, index, EdgeIndexReader)
}

// The reader of the list of faces.
#[derive(Clone, Copy)]
struct FaceIndexReader;

impl Reader for FaceIndexReader {
    type Record = u16;

    ghost reads = { λ reader. u16_at };

    #[inline(always)]
    fn read(self, s: &[u8], at: usize) -> Read<u16> {
        read_u16(s, at)
    }
}

// The entry of an index of the list of faces.
pub fn facelist(s: &[u8], map: BspData, index: usize) -> Answer<usize>
    ensures { answer_of result ≡ facelist_of s.now map index }
{
    let face = record(s, map, BspFileSectionId::FaceList, index, FaceIndexReader)?;
    Ok(face as usize)
}
