// Traces: what a moving point meets. The trace types of phys.rs; a trace is taken by value and handed back as a new
// value.
#![tactic(auto)]

ghost use Rattle.std.specs.Prelude.{◌≡◌};
ghost use Rattle.format.specs.Answers.{answer_of};
ghost use Rattle.phys.specs.Trace as Tr;

use format::contents::BspLeafContents;
use format::refusal::{Answer, Refusal};
use math::{Hyperplane, Vector3};

// The start of a trace, and the ratio along the original trace at which this part begins.
#[derive(Clone, Copy)]
pub struct TraceStart {
    pub point: Vector3,
    pub ratio: f32,
}

impl TraceStart {
    pub fn new(point: Vector3, ratio: f32) -> TraceStart
        ensures { result ≡ Tr.start point ratio }
    {
        TraceStart { point, ratio }
    }
}

// The end of a trace that crossed between leaves.
#[derive(Clone, Copy)]
pub struct TraceEndBoundary {
    pub ratio: f32,
    pub plane: Hyperplane,
}

// An end within a leaf, or on the plane between two. (The Rust's type and names, and no Option: an end within a leaf is not the lack of one.)
#[derive(Clone, Copy)]
pub enum TraceEndKind {
    Terminal,
    Boundary(TraceEndBoundary),
}

// The end of a trace.
#[derive(Clone, Copy)]
pub struct TraceEnd {
    pub point: Vector3,
    pub kind: TraceEndKind,
}

impl TraceEnd {
    pub fn terminal(point: Vector3) -> TraceEnd
        ensures { result ≡ Tr.terminal point }
    {
        TraceEnd {
            point,
            kind: TraceEndKind::Terminal,
        }
    }

    pub fn boundary(point: Vector3, ratio: f32, plane: Hyperplane) -> TraceEnd
        ensures { result ≡ Tr.boundary point ratio plane }
    {
        TraceEnd {
            point,
            kind: TraceEndKind::Boundary(TraceEndBoundary { ratio, plane }),
        }
    }
}

// A trace through leaves of the same contents, or out of a solid one.
#[derive(Clone, Copy)]
pub struct Trace {
    pub start: TraceStart,
    pub end: TraceEnd,
    pub contents: BspLeafContents,
    pub start_solid: bool,
}

impl Trace {
    pub fn new(start: TraceStart, end: TraceEnd, contents: BspLeafContents) -> Trace
        ensures { result ≡ Tr.new_trace start end contents }
    {
        Trace {
            start,
            end,
            contents,
            start_solid: contents == BspLeafContents::Solid,
        }
    }

    // This trace with another that starts at its end. Refused (19) after a terminal trace, and where the points differ; a
    // NaN always differs.
    #[tactic(auto, using(format::proofs::Same::same_contents), unfolding(crate::specs::Trace::join))]
    pub fn join(self, other: Trace) -> Answer<Trace>
        ensures { answer_of result ≡ Tr.join self other }
    {
        if self.is_terminal() || self.end.point != other.start.point {
            return Err(Refusal::CannotJoin);
        }
        let end = other.end;
        if self.contents == other.contents {
            return Ok(Trace { end, ..self });
        }
        if self.contents == BspLeafContents::Solid {
            return Ok(Trace {
                end,
                contents: other.contents,
                start_solid: true,
                ..self
            });
        }
        Ok(self)
    }

    // The trace with its start and end moved by an offset.
    pub fn adjust(self, offset: Vector3) -> Trace
        ensures { result ≡ Tr.adjust self offset }
    {
        Trace {
            start: TraceStart::new(self.start.point.add(offset), self.start.ratio),
            end: TraceEnd {
                point: self.end.point.add(offset),
                ..self.end
            },
            ..self
        }
    }

    // The point at which the trace began.
    pub fn start_point(self) -> Vector3
        ensures { result ≡ self.start.point }
    {
        self.start.point
    }

    // The point at which the trace ended.
    pub fn end_point(self) -> Vector3
        ensures { result ≡ self.end.point }
    {
        self.end.point
    }

    // Whether the whole trace lies in solid leaves.
    pub fn all_solid(self) -> bool
        ensures { result ≡ Tr.all_solid self }
    {
        self.contents == BspLeafContents::Solid
    }

    // Whether the trace began in a solid leaf.
    pub fn start_solid(self) -> bool
        ensures { result ≡ self.start_solid }
    {
        self.start_solid
    }

    pub fn in_open(self) -> bool
        ensures { result ≡ Tr.in_open self }
    {
        self.contents == BspLeafContents::Empty
    }

    pub fn in_water(self) -> bool
        ensures { result ≡ Tr.in_water self }
    {
        self.contents != BspLeafContents::Empty && self.contents != BspLeafContents::Solid
    }

    // Whether the trace ended without a collision.
    pub fn is_terminal(self) -> bool
        ensures { result ≡ Tr.is_terminal self }
    {
        matches!(self.end.kind, TraceEndKind::Terminal)
    }

    // The part of the intended distance that was travelled: 1 for a terminal trace.
    pub fn ratio(self) -> f32
        ensures { result ≡ Tr.ratio self }
    {
        match self.end.kind {
            TraceEndKind::Terminal => 1.0,
            TraceEndKind::Boundary(boundary) => boundary.ratio,
        }
    }
}
