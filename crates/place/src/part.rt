// Where reading the records of a part of loading stops.
ghost use Rattle.std.specs.Prelude.{◌≡◌};
ghost use Rattle.sections.specs.Answers.{position_step};
ghost use Rattle.place.specs.Part as Spec;
ghost use Rattle.place.specs.Private.{section_of_part};

use crate::read::{
    limit_of, past, past_entry, past_extents, past_face, past_header, past_references,
};
use format::refusal::Answer;
use format::section::{BspData, BspFileSectionId};
use load::tested::read_textured;
use models::model::read_file_model;
use records::leaf::read_leaf;
use records::node::{read_collision_node, read_render_node};
use records::number::read_offset;
use sections::row::read_plain;

// A record by its index, at a position of the file.
#[derive(Clone, Copy)]
pub struct Stop {
    pub index: u32,
    pub byte: usize,
}

// So many records from a position on.
#[derive(Clone, Copy)]
pub struct Span {
    pub count: u32,
    pub start: usize,
}

// The parts of loading that read records in a row.
#[derive(Clone, Copy)]
pub enum Part {
    Directory,
    Limits,
    Planes,
    Offsets,
    Textures,
    Vertices,
    RenderNodes,
    TextureInfo,
    Faces,
    CollisionNodes,
    Leaves,
    FaceList,
    Edges,
    EdgeList,
    Extents,
    References,
    Models,
}

impl Part {
    // The section whose records a part reads; none for the header's entries.
    pub(crate) fn section(self) -> Option<BspFileSectionId>
        ensures { result ≡ section_of_part self }
    {
        match self {
            Part::Directory | Part::Limits => None,
            Part::Planes => Some(BspFileSectionId::Planes),
            Part::Offsets | Part::Textures => Some(BspFileSectionId::Textures),
            Part::Vertices => Some(BspFileSectionId::Vertices),
            Part::RenderNodes | Part::References => Some(BspFileSectionId::RenderNodes),
            Part::TextureInfo => Some(BspFileSectionId::TextureInfo),
            Part::Faces | Part::Extents => Some(BspFileSectionId::Faces),
            Part::CollisionNodes => Some(BspFileSectionId::CollisionNodes),
            Part::Leaves => Some(BspFileSectionId::Leaves),
            Part::FaceList => Some(BspFileSectionId::FaceList),
            Part::Edges => Some(BspFileSectionId::Edges),
            Part::EdgeList => Some(BspFileSectionId::EdgeList),
            Part::Models => Some(BspFileSectionId::Models),
        }
    }

    // The records of a part.
    #[tactic(auto, unfolding(crate::specs::Part::span_of, crate::specs::Part::section_span))]
    fn span(self, map: BspData) -> Span
        ensures { result ≡ Spec.span_of self map }
    {
        match self.section() {
            None => Span {
                count: 15,
                start: 4,
            },
            Some(BspFileSectionId::Textures) => Span {
                count: map.texture_count,
                start: map.textures.offset as usize + 4,
            },
            Some(id) => {
                let section = map.section(id);
                Span {
                    count: section.record_count(id),
                    start: section.offset as usize,
                }
            }
        }
    }
}

// Record i of a part, at a position: the position after it, or the refusal. A match, since the arms take different arguments.
#[tactic(auto, unfolding(crate::specs::Part::record_at))]
fn read_record(s: &[u8], part: Part, map: BspData, i: u32, at: usize) -> Answer<usize>
    ensures { position_step result ≡ Spec.record_at part s.now map i at }
{
    match part {
        Part::Directory => past_entry(s, i, at),
        Part::Limits => limit_of(map, i),
        Part::Planes => read_plain(s, at, 20),
        Part::Offsets => past(read_offset(s, at)),
        Part::Textures => past_header(s, map, i, at),
        Part::Vertices => read_plain(s, at, 12),
        Part::RenderNodes => past(read_render_node(s, at)),
        Part::TextureInfo => past(read_textured(s, at, map.texture_count)),
        Part::Faces => past_face(s, map, at),
        Part::CollisionNodes => past(read_collision_node(s, at)),
        Part::Leaves => past(read_leaf(s, at)),
        Part::FaceList => read_plain(s, at, 2),
        Part::Edges | Part::EdgeList => read_plain(s, at, 4),
        Part::Extents => past_extents(s, map, at),
        Part::References => past_references(s, map, at),
        Part::Models => past(read_file_model(s, at)),
    }
}

// Where reading the records of a part stops: at the first that is refused, or after the last.
pub fn stop_in(s: &[u8], part: Part, map: BspData) -> Stop
    ensures { result ≡ Spec.stop_in part s.now map }
{
    let span = part.span(map);
    let mut byte = span.start;
    for index in 0..span.count {
        let Ok(next) = read_record(s, part, map, index, byte) else {
            return Stop { index, byte };
        };
        byte = next;
    }
    Stop {
        index: span.count,
        byte,
    }
}
