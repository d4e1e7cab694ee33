// The traces: one is given by sixteen words, the words that `bsp_trace` writes after the visits, and
// answered by its word number `word`.
// Each exported name is a function of its own with a parameter for each number: the interface for C asks it.
ghost use Rattle.std.specs.Prelude.{◌≡◌, ◌≤◌, get_or};
ghost use Rattle.format.specs.Answers.{answer_of};
ghost use Rattle.math.specs.Vector as Vec;
ghost use Rattle.phys.specs.Trace as Tr;
ghost use Rattle.words.specs.Words.{flag_word};
ghost use Rattle.ffi_math.specs.TraceWords as TraceWords;
ghost use Rattle.ffi_math.specs.FloatWords.{coordinate_of};

use crate::planes::{plane_given, plane_word};
use crate::vectors::part_of;
use float::num::{from_bits, to_bits};
use format::code::contents_of;
use format::contents::BspLeafContents;
use format::refusal::Answer;
use math::Vector3;
use phys::{Trace, TraceEnd, TraceEndBoundary, TraceEndKind, TraceStart};
use words::word_at;

fn float_at(words: &[u32], at: usize) -> f32
    ensures { result ≡ TraceWords.float_at words.now at }
{
    from_bits(word_at(words, at))
}

// (Other words: a float of 32 bits each; `vector_at` of `ffi_hull` takes words of 64.)
fn point_at(words: &[u32], at: usize) -> Vector3
    requires { at ≤ 13 }
    ensures { result ≡ TraceWords.point_at words.now at }
{
    Vector3 {
        x: float_at(words, at),
        y: float_at(words, at + 1),
        z: float_at(words, at + 2),
    }
}

#[tactic(auto, unfolding(crate::specs::TraceWords::contents_given))]
fn contents_given(words: &[u32]) -> BspLeafContents
    ensures { result ≡ TraceWords.contents_given words.now }
{
    contents_of(word_at(words, 0)).unwrap_or(BspLeafContents::Empty)
}

#[tactic(auto, unfolding(crate::specs::TraceWords::start_given))]
fn start_given(words: &[u32]) -> TraceStart
    ensures { result ≡ TraceWords.start_given words.now }
{
    TraceStart::new(point_at(words, 2), float_at(words, 5))
}

#[tactic(auto, unfolding(crate::specs::TraceWords::end_given))]
fn end_given(words: &[u32]) -> TraceEnd
    ensures { result ≡ TraceWords.end_given words.now }
{
    let point = point_at(words, 6);
    if word_at(words, 9) == 0 {
        return TraceEnd::terminal(point);
    }
    let plane = plane_given(
        word_at(words, 11),
        float_at(words, 12),
        float_at(words, 13),
        float_at(words, 14),
        float_at(words, 15),
    );
    TraceEnd::boundary(point, float_at(words, 10), plane)
}

#[tactic(auto, unfolding(crate::specs::TraceWords::trace_given))]
fn trace_given(words: &[u32]) -> Trace
    ensures { result ≡ TraceWords.trace_given words.now }
{
    Trace {
        start: start_given(words),
        end: end_given(words),
        contents: contents_given(words),
        start_solid: word_at(words, 1) != 0,
    }
}

// Word number `word` of an end on a plane.
#[tactic(auto, unfolding(crate::specs::TraceWords::boundary_words))]
fn boundary_word(boundary: TraceEndBoundary, word: u32) -> u32
    ensures { result ≡ get_or (TraceWords.boundary_words boundary) word 0 }
{
    let plane = boundary.plane;
    match word {
        0 => 1,
        1 => to_bits(boundary.ratio),
        _ => plane_word(plane, word - 2),
    }
}

// Word number `word` of how a trace ends.
fn kind_word(kind: TraceEndKind, word: u32) -> u32
    ensures { result ≡ get_or (TraceWords.kind_words kind) word 0 }
{
    match kind {
        TraceEndKind::Terminal => 0,
        TraceEndKind::Boundary(boundary) => boundary_word(boundary, word),
    }
}

// Word number `word` of a trace's end.
#[tactic(auto, unfolding(crate::specs::TraceWords::end_words))]
fn end_word(end: TraceEnd, word: u32) -> u32
    ensures { result ≡ get_or (TraceWords.end_words end) word 0 }
{
    let kind = end.kind;
    match word {
        0 => to_bits(end.point.x),
        1 => to_bits(end.point.y),
        2 => to_bits(end.point.z),
        _ => kind_word(kind, word - 3),
    }
}

fn flag_word(flag: bool) -> u32
    ensures { result ≡ flag_word flag }
{
    u32::from(flag)
}

// Word number `word` of a trace.
#[tactic(auto, unfolding(crate::specs::TraceWords::trace_words))]
fn trace_word(trace: Trace, word: u32) -> u32
    ensures { result ≡ get_or (TraceWords.trace_words trace) word 0 }
{
    let contents = trace.contents;
    let start = trace.start;
    let end = trace.end;
    match word {
        0 => contents.code(),
        1 => flag_word(trace.start_solid),
        2 => to_bits(start.point.x),
        3 => to_bits(start.point.y),
        4 => to_bits(start.point.z),
        5 => to_bits(start.ratio),
        _ => end_word(end, word - 6),
    }
}

// Word number `word` of what `join` answers.
fn joined_word(joined: Answer<Trace>, word: u32) -> u32
    ensures { result ≡ get_or (TraceWords.joined_words (answer_of joined)) word 0 }
{
    match joined {
        Ok(trace) => {
            if word == 0 {
                0
            } else {
                trace_word(trace, word - 1)
            }
        }
        Err(e) => { if word == 0 { e.number() } else { 0 } }
    }
}

#[unsafe(no_mangle)]
pub extern "C" fn trace_new_word(trace: &[u32], word: u32) -> u32
    ensures { result ≡ get_or (TraceWords.trace_words (Tr.new_trace (TraceWords.start_given trace.now) (TraceWords.end_given trace.now) (TraceWords.contents_given trace.now))) word 0 }
{
    trace_word(
        Trace::new(start_given(trace), end_given(trace), contents_given(trace)),
        word,
    )
}

#[unsafe(no_mangle)]
pub extern "C" fn trace_join_word(first: &[u32], second: &[u32], word: u32) -> u32
    ensures { result ≡ get_or (TraceWords.joined_words (Tr.join (TraceWords.trace_given first.now) (TraceWords.trace_given second.now))) word 0 }
{
    joined_word(trace_given(first).join(trace_given(second)), word)
}

#[unsafe(no_mangle)]
pub extern "C" fn trace_adjust_word(trace: &[u32], x: f32, y: f32, z: f32, word: u32) -> u32
    ensures { result ≡ get_or (TraceWords.trace_words (Tr.adjust (TraceWords.trace_given trace.now) (Vec.vector x y z))) word 0 }
{
    trace_word(trace_given(trace).adjust(Vector3 { x, y, z }), word)
}

#[unsafe(no_mangle)]
pub extern "C" fn trace_start_point(trace: &[u32], part: u32) -> f32
    ensures { result ≡ coordinate_of (TraceWords.trace_given trace.now).start.point part }
{
    part_of(trace_given(trace).start_point(), part)
}

#[unsafe(no_mangle)]
pub extern "C" fn trace_end_point(trace: &[u32], part: u32) -> f32
    ensures { result ≡ coordinate_of (TraceWords.trace_given trace.now).end.point part }
{
    part_of(trace_given(trace).end_point(), part)
}

#[unsafe(no_mangle)]
pub extern "C" fn trace_ratio(trace: &[u32]) -> f32
    ensures { result ≡ Tr.ratio (TraceWords.trace_given trace.now) }
{
    trace_given(trace).ratio()
}

#[unsafe(no_mangle)]
pub extern "C" fn trace_is_terminal(trace: &[u32]) -> bool
    ensures { result ≡ Tr.is_terminal (TraceWords.trace_given trace.now) }
{
    trace_given(trace).is_terminal()
}

#[unsafe(no_mangle)]
pub extern "C" fn trace_all_solid(trace: &[u32]) -> bool
    ensures { result ≡ Tr.all_solid (TraceWords.trace_given trace.now) }
{
    trace_given(trace).all_solid()
}

#[unsafe(no_mangle)]
pub extern "C" fn trace_start_solid(trace: &[u32]) -> bool
    ensures { result ≡ (TraceWords.trace_given trace.now).start_solid }
{
    trace_given(trace).start_solid()
}

#[unsafe(no_mangle)]
pub extern "C" fn trace_in_open(trace: &[u32]) -> bool
    ensures { result ≡ Tr.in_open (TraceWords.trace_given trace.now) }
{
    trace_given(trace).in_open()
}

#[unsafe(no_mangle)]
pub extern "C" fn trace_in_water(trace: &[u32]) -> bool
    ensures { result ≡ Tr.in_water (TraceWords.trace_given trace.now) }
{
    trace_given(trace).in_water()
}
