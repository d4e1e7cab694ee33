// The texture mins and extents of a face, as loading works them out (the Rust's text after 'see Calc_SurfaceExtents').
ghost use Rattle.std.specs.Prelude.{◌≡◌, ◌-◌};
ghost use Rattle.format.specs.Answers.{answer_of};
ghost use Rattle.faces.specs.Extents.{vertex_on, corner_of, unbounded, widened, span_over, texture_min, extent, surface_in, span_of, surface_of, with_surface, face_of};

use crate::face::{BspFace, TexturePair, file_face};
use float::num::{ceil, floor, max, min, to_i16};
use format::refusal::{Answer, Refusal};
use format::section::{BspData, BspFileSectionId};
use math::Vector3;
use records::edge::{BspEdge, BspEdgeDirection, edge, edgelist};
use records::plane::vertex;
use records::texinfo::{BspTexInfo, texinfo};

// The vertex of an edge on the side from which it is walked, `vertex_ids[direction as usize]`.
fn vertex_on(direction: BspEdgeDirection, edge: BspEdge) -> usize
    ensures { result ≡ vertex_on direction edge }
{
    match direction {
        BspEdgeDirection::Forward => edge.vertex_id_0 as usize,
        BspEdgeDirection::Backward => edge.vertex_id_1 as usize,
    }
}

// The vertex of an entry of the list of edges.
#[tactic(auto, unfolding(crate::specs::Extents::corner_of))]
fn corner(s: &[u8], map: BspData, index: usize) -> Answer<Vector3>
    ensures { answer_of result ≡ corner_of s.now map index }
{
    let entry = edgelist(s, map, index).map_err(|_| Refusal::Unreadable)?;
    let edge = edge(s, map, entry.index).map_err(|_| Refusal::Unreadable)?;
    vertex(s, map, vertex_on(entry.direction, edge)).map_err(|_| Refusal::Unreadable)
}

// The least and the greatest s and t so far.
#[derive(Clone, Copy)]
pub struct Span {
    pub s_min: f32,
    pub s_max: f32,
    pub t_min: f32,
    pub t_max: f32,
}

// Before the first vertex.
#[tactic(auto, unfolding(crate::specs::Extents::unbounded))]
fn unbounded_span() -> Span
    ensures { result ≡ unbounded }
{
    Span {
        s_min: f32::INFINITY,
        s_max: f32::NEG_INFINITY,
        t_min: f32::INFINITY,
        t_max: f32::NEG_INFINITY,
    }
}

// With one vertex more.
#[tactic(auto, unfolding(crate::specs::Extents::widened))]
fn widened_span(info: BspTexInfo, vertex: Vector3, w: Span) -> Span
    ensures { result ≡ widened info vertex w }
{
    let s = info.s_vector.dot(vertex) + info.s_offset;
    let t = info.t_vector.dot(vertex) + info.t_offset;
    Span {
        s_min: min(w.s_min, s),
        s_max: max(w.s_max, s),
        t_min: min(w.t_min, t),
        t_max: max(w.t_max, t),
    }
}

// Over the vertices of the entries of the list of edges from `first` up to `end`.
#[tactic(auto, using(crate::proofs::Spans::done, crate::proofs::Spans::more, crate::proofs::Spans::stop, format::proofs::Answers::handed_answer))]
fn span_over(s: &[u8], map: BspData, info: BspTexInfo, first: usize, end: usize) -> Answer<Span>
    ensures { answer_of result ≡ span_over s.now map info (end - first) first unbounded }
{
    let mut w = unbounded_span();
    for i in first..end {
        let v = corner(s, map, i)?;
        w = widened_span(info, v, w);
    }
    Ok(w)
}

// Over the vertices of `count` entries from `first` on, which must all lie in the list of edges.
#[tactic(auto, unfolding(crate::specs::Extents::span_of))]
fn span_in_list(
    s: &[u8],
    map: BspData,
    info: BspTexInfo,
    first: usize,
    count: usize,
) -> Answer<Span>
    ensures { answer_of result ≡ span_of s.now map info first count }
{
    let total = map.edgelist.record_count(BspFileSectionId::EdgeList) as usize;
    match first.checked_add(count) {
        Some(end) if end <= total => span_over(s, map, info, first, end),
        _ => Err(Refusal::Unreadable),
    }
}

// A texture min of the least value: divided by 16, floored, cast, times 16 in 16 bits.
#[tactic(auto, unfolding(crate::specs::Extents::texture_min, float::specs::Whole::times16))]
fn texture_min(low: f32) -> i16
    ensures { result ≡ texture_min low }
{
    to_i16(floor(low / 16.0)).wrapping_mul(16)
}

// An extent of the least and the greatest value: the difference is cast.
#[tactic(auto, unfolding(crate::specs::Extents::extent, float::specs::Whole::times16))]
fn extent_of(low: f32, high: f32) -> i16
    ensures { result ≡ extent low high }
{
    to_i16(ceil(high / 16.0) - floor(low / 16.0)).wrapping_mul(16)
}

// What loading works out for a face, and whether its texture info is marked special, so that its extents may be above 2,000.
#[derive(Clone, Copy)]
pub struct Surface {
    pub texture_mins: TexturePair,
    pub extents: TexturePair,
    pub special: bool,
}

#[tactic(auto, unfolding(crate::specs::Extents::surface_in))]
fn surface_in(w: Span, special: bool) -> Surface
    ensures { result ≡ surface_in w special }
{
    Surface {
        texture_mins: TexturePair {
            s: texture_min(w.s_min),
            t: texture_min(w.t_min),
        },
        extents: TexturePair {
            s: extent_of(w.s_min, w.s_max),
            t: extent_of(w.t_min, w.t_max),
        },
        special,
    }
}

// The texture mins and extents of a face. 23 where its texture info, its edges or their vertices are not there; loading makes that 11.
#[tactic(auto, unfolding(crate::specs::Extents::surface_of))]
pub fn surface_of(s: &[u8], map: BspData, face: BspFace) -> Answer<Surface>
    ensures { answer_of result ≡ surface_of s.now map face }
{
    let info = texinfo(s, map, face.texinfo_id).map_err(|_| Refusal::Unreadable)?;
    let w = span_in_list(s, map, info, face.edge_id, face.edge_count)?;
    Ok(surface_in(w, info.special))
}

// The face with its texture mins and extents. (`with_bounds` of `sized_hulls` sets two fields of a hull: a literal, and nothing to share.)
fn with_surface(face: BspFace, of: Surface) -> BspFace
    ensures { result ≡ with_surface face of }
{
    BspFace {
        texture_mins: of.texture_mins,
        extents: of.extents,
        ..face
    }
}

// The face of an index, with its texture mins and extents. An extent above 2,000 is not tested.
#[tactic(auto, unfolding(crate::specs::Extents::face_of))]
pub fn face(s: &[u8], map: BspData, index: usize) -> Answer<BspFace>
    ensures { answer_of result ≡ face_of s.now map index }
{
    let face = file_face(s, map, index)?;
    let of = surface_of(s, map, face)?;
    Ok(with_surface(face, of))
}
