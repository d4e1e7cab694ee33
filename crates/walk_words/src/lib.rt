// The words of contents and of a trace.
#![tactic(auto)]

ghost use Rattle.std.specs.Prelude.{◌≡◌};
ghost use Rattle.walk_words.specs.Layout as Layout;

use format::contents::BspLeafContents;
use math::{Hyperplane, Vector3};
use phys::{Trace, TraceEndKind};
use words::{flag_word, float_word};

// The code of the contents, and then the visits.
pub fn contents_words(found: (BspLeafContents, u64)) -> [u64; 2]
    ensures { result ≡ Layout.contents_words found }
{
    let (contents, visits) = found;
    [contents.code() as u64, visits]
}

// 1, the ratio and the plane: the words of a boundary, by its parts.
#[inline(always)]
pub fn boundary_words(ratio: f32, plane: Hyperplane) -> [u64; 7]
    ensures { result ≡ Layout.boundary_words (record { ratio = ratio; plane = plane }) }
{
    let p = words::plane_words(plane);
    [1, float_word(ratio), p[0], p[1], p[2], p[3], p[4]]
}

// 0 and zeros for an end within a leaf.
fn kind_words(kind: TraceEndKind) -> [u64; 7]
    ensures { result ≡ Layout.kind_words kind }
{
    match kind {
        TraceEndKind::Terminal => [0; 7],
        TraceEndKind::Boundary(boundary) => boundary_words(boundary.ratio, boundary.plane),
    }
}

// The visits, and then a trace by its parts: the contents, whether it started solid, the start's point and ratio, the end's point and the words
// of its kind.
#[inline(always)]
pub fn parts_words(
    visits: u64,
    contents: BspLeafContents,
    start_solid: bool,
    from: Vector3,
    ratio: f32,
    to: Vector3,
    kind: [u64; 7],
) -> [u64; 17]
    ensures { result ≡ Layout.parts_words visits contents start_solid from ratio to kind }
{
    [
        visits,
        contents.code() as u64,
        flag_word(start_solid),
        float_word(from.x),
        float_word(from.y),
        float_word(from.z),
        float_word(ratio),
        float_word(to.x),
        float_word(to.y),
        float_word(to.z),
        kind[0],
        kind[1],
        kind[2],
        kind[3],
        kind[4],
        kind[5],
        kind[6],
    ]
}

// The visits, and then the trace.
pub fn trace_words(trace: Trace, visits: u64) -> [u64; 17]
    ensures { result ≡ Layout.trace_words (trace, visits) }
{
    let start = trace.start;
    let end = trace.end;
    let from = start.point;
    parts_words(
        visits,
        trace.contents,
        trace.start_solid,
        from,
        start.ratio,
        end.point,
        kind_words(end.kind),
    )
}
