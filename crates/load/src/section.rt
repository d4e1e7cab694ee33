// The entity section, and the sections whose fields are not tested.
ghost use Rattle.std.specs.Prelude.{◌≡◌};
ghost use Rattle.format.specs.Field.{u16_at};
ghost use Rattle.format.specs.declared.section.BspFileSectionId.TheVariants as Id;
ghost use Rattle.records.specs.Edge.{edge_at, edge_index_at};
ghost use Rattle.records.specs.Plane.{plane_at};
ghost use Rattle.records.specs.Triple.{vector_at};
ghost use Rattle.sections.specs.Answers.{position_step};
ghost use Rattle.sections.specs.Records as Records;
ghost use Rattle.load.specs.Entities.{text_of, entities};

use format::refusal::{Answer, Refusal};
use format::section::{BspFileSection, BspFileSectionId};
use models::text::text_end;
use sections::position::check_end_position;
use sections::row::check_plain;
use utf8::is_utf8;

// The bytes from a position through the first zero, or to the file's end.
#[tactic(auto, using(models::proofs::Texts::starts, models::proofs::Texts::stays, crate::proofs::Texts::none_is))]
fn text(s: &[u8], at: usize) -> &[u8]
    ensures { result.now ≡ text_of s.now at }
{
    match s.get(at..text_end(s, at)) {
        Some(text) => text,
        None => &[],
    }
}

// The entity text: its length, its encoding, and its end.
#[tactic(auto, unfolding(crate::specs::Entities::entities))]
pub fn check_entities(s: &[u8], section: BspFileSection) -> Answer<usize>
    ensures { position_step result ≡ entities s.now section }
{
    let at = section.offset as usize;
    let text = text(s, at);
    if 65536 < text.len() {
        return Err(Refusal::EntityTextTooLong);
    }
    if !is_utf8(text) {
        return Err(Refusal::EntityTextNotUtf8);
    }
    check_end_position(section, at + text.len())
}

#[tactic(auto, using(sections::proofs::Plain::plain_section_lem, crate::proofs::Untested::plain_plane))]
pub fn check_planes(s: &[u8], section: BspFileSection) -> Answer<usize>
    ensures { position_step result ≡ Records.section plane_at Id.Planes s.now section }
{
    check_plain(s, section, BspFileSectionId::Planes)
}

#[tactic(auto, using(sections::proofs::Plain::plain_section_lem, crate::proofs::Untested::plain_vector))]
pub fn check_vertices(s: &[u8], section: BspFileSection) -> Answer<usize>
    ensures { position_step result ≡ Records.section vector_at Id.Vertices s.now section }
{
    check_plain(s, section, BspFileSectionId::Vertices)
}

#[tactic(auto, using(sections::proofs::Plain::plain_section_lem, sections::proofs::Plain::plain_u16))]
pub fn check_facelist(s: &[u8], section: BspFileSection) -> Answer<usize>
    ensures { position_step result ≡ Records.section u16_at Id.FaceList s.now section }
{
    check_plain(s, section, BspFileSectionId::FaceList)
}

#[tactic(auto, using(sections::proofs::Plain::plain_section_lem, crate::proofs::Untested::plain_edge))]
pub fn check_edges(s: &[u8], section: BspFileSection) -> Answer<usize>
    ensures { position_step result ≡ Records.section edge_at Id.Edges s.now section }
{
    check_plain(s, section, BspFileSectionId::Edges)
}

#[tactic(auto, using(sections::proofs::Plain::plain_section_lem, crate::proofs::Untested::plain_edge_index))]
pub fn check_edgelist(s: &[u8], section: BspFileSection) -> Answer<usize>
    ensures { position_step result ≡ Records.section edge_index_at Id.EdgeList s.now section }
{
    check_plain(s, section, BspFileSectionId::EdgeList)
}
