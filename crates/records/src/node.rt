// Render nodes and collision nodes.
ghost use Rattle.std.specs.Prelude.{◌≡◌};
ghost use Rattle.format.specs.Answers.{step_of, answer_of};
ghost use Rattle.records.specs.Node.{render_child, render_child_at, render_node_at, render_node_of, collision_child_at, collision_node_at, collision_node_of};

use crate::access::record;
use crate::number::read_index16;
use crate::point::read_point;
use crate::triple::Point;
use format::code::contents_of_negated_i16;
use format::contents::BspLeafContents;
use format::field::{Read, read_i16, read_index, read_u16};
use format::reader::Reader;
use format::refusal::{Answer, Refusal};
use format::section::{BspData, BspFileSectionId};

#[derive(Clone, Copy)]
pub enum BspRenderNodeChild {
    Node(usize),
    Leaf(usize),
}

// `front` and `back` are the Rust's `children`.
#[derive(Clone, Copy)]
pub struct BspRenderNode {
    pub plane_id: usize,
    pub front: BspRenderNodeChild,
    pub back: BspRenderNodeChild,
    pub min: Point,
    pub max: Point,
    pub face_id: usize,
    pub face_count: usize,
}

// A child f: a node, or if it is negative the leaf -1 - f.
#[tactic(auto, unfolding(crate::specs::Node::render_child))]
fn render_child_of(f: i16) -> BspRenderNodeChild
    ensures { result ≡ render_child f }
{
    if f < 0 {
        BspRenderNodeChild::Leaf((-1 - f) as usize)
    } else {
        BspRenderNodeChild::Node(f as usize)
    }
}

#[tactic(auto, unfolding(crate::specs::Node::render_child_at))]
fn read_render_child(s: &[u8], at: usize) -> Read<BspRenderNodeChild>
    ensures { step_of result ≡ render_child_at s.now at }
{
    let (f, next) = read_i16(s, at)?;
    Ok((render_child_of(f), next))
}

// `load_render_node`.
// Inlined: loading needs the tests alone, and there the value is then not made.
#[inline(always)]
#[tactic(auto, unfolding(crate::specs::Node::render_node_at, crate::specs::Node::render_node_end_at))]
pub fn read_render_node(s: &[u8], at: usize) -> Read<BspRenderNode>
    ensures { step_of result ≡ render_node_at s.now at }
{
    let (plane_id, p) = read_index(s, at, Refusal::InvalidField)?;
    let (front, q) = read_render_child(s, p)?;
    let (back, t) = read_render_child(s, q)?;
    let (min, u) = read_point(s, t)?;
    let (max, v) = read_point(s, u)?;
    let (face_id, w) = read_index16(s, v)?;
    let (face_count, next) = read_u16(s, w)?;
    Ok((
        BspRenderNode {
            plane_id: plane_id as usize,
            front,
            back,
            min,
            max,
            face_id: face_id as usize,
            face_count: face_count as usize,
        },
        next,
    ))
}

// The reader of render nodes.
#[derive(Clone, Copy)]
pub struct RenderNodeReader;

impl Reader for RenderNodeReader {
    type Record = BspRenderNode;

    ghost reads = { λ reader. render_node_at };

    #[inline(always)]
    fn read(self, s: &[u8], at: usize) -> Read<BspRenderNode> {
        read_render_node(s, at)
    }
}

// The render node of an index.
pub fn render_node(s: &[u8], map: BspData, index: usize) -> Answer<BspRenderNode>
    ensures { answer_of result ≡ render_node_of s.now map index }
{
    record(
        s,
        map,
        BspFileSectionId::RenderNodes,
        index,
        RenderNodeReader,
    )
}

#[derive(Clone, Copy)]
pub enum BspCollisionNodeChild {
    Node(usize),
    Contents(BspLeafContents),
}

// `front` and `back` are the Rust's `children`.
#[derive(Clone, Copy)]
pub struct BspCollisionNode {
    pub plane_id: usize,
    pub front: BspCollisionNodeChild,
    pub back: BspCollisionNodeChild,
}

// A child x: a node, or if it is negative the contents of the code -x.
#[tactic(auto, unfolding(crate::specs::Node::collision_child_at))]
fn read_collision_child(s: &[u8], at: usize) -> Read<BspCollisionNodeChild>
    ensures { step_of result ≡ collision_child_at s.now at }
{
    let (x, next) = read_i16(s, at)?;
    if x < 0 {
        let contents = contents_of_negated_i16(x).ok_or(Refusal::InvalidField)?;
        return Ok((BspCollisionNodeChild::Contents(contents), next));
    }
    Ok((BspCollisionNodeChild::Node(x as usize), next))
}

// Inlined: loading needs the tests alone, and there the value is then not made.
#[inline(always)]
#[tactic(auto, unfolding(crate::specs::Node::collision_node_at))]
pub fn read_collision_node(s: &[u8], at: usize) -> Read<BspCollisionNode>
    ensures { step_of result ≡ collision_node_at s.now at }
{
    let (plane_id, p) = read_index(s, at, Refusal::InvalidField)?;
    let (front, q) = read_collision_child(s, p)?;
    let (back, next) = read_collision_child(s, q)?;
    Ok((
        BspCollisionNode {
            plane_id: plane_id as usize,
            front,
            back,
        },
        next,
    ))
}

// The reader of collision nodes.
#[derive(Clone, Copy)]
pub struct CollisionNodeReader;

impl Reader for CollisionNodeReader {
    type Record = BspCollisionNode;

    ghost reads = { λ reader. collision_node_at };

    #[inline(always)]
    fn read(self, s: &[u8], at: usize) -> Read<BspCollisionNode> {
        read_collision_node(s, at)
    }
}

// The collision node of an index.
pub fn collision_node(s: &[u8], map: BspData, index: usize) -> Answer<BspCollisionNode>
    ensures { answer_of result ≡ collision_node_of s.now map index }
{
    record(
        s,
        map,
        BspFileSectionId::CollisionNodes,
        index,
        CollisionNodeReader,
    )
}
