// A record of each kind: the position after it, or the refusal.
// (The file, its map record and the position stand apart, since each definition takes them so.)
ghost use Rattle.std.specs.Prelude.{◌≡◌};
ghost use Rattle.format.specs.Answers.{step_of};
ghost use Rattle.sections.specs.Answers.{position_step};
ghost use Rattle.sections.specs.Table.{section_at};
ghost use Rattle.place.specs.Part as Spec;
ghost use Rattle.place.specs.declared.part.Part.TheVariants as Of;

use faces::face::read_face;
use format::field::Read;
use format::refusal::{Answer, Refusal};
use format::section::{BspData, BspFileSectionId};
use load::extents::read_extents;
use load::tested::read_references;
use sections::table::{exceeds, read_section};
use textures::load::read_listed_texture;

// The position after what was read, its value aside.
pub fn past<T: Copy>(read: Read<T>) -> Answer<usize>
    ensures { position_step result ≡ Spec.done (step_of read) }
{
    let (_, next) = read?;
    Ok(next)
}

// The section of an entry of the directory.
#[tactic(auto, unfolding(crate::specs::Part::id_of, format::specs::Section::section_numbered))]
fn id_of(i: u32) -> BspFileSectionId
    ensures { result ≡ Spec.id_of i }
{
    BspFileSectionId::numbered(i).unwrap_or(BspFileSectionId::Models)
}

pub fn past_entry(s: &[u8], i: u32, at: usize) -> Answer<usize>
    ensures { position_step result ≡ Spec.done (section_at (Spec.id_of i) s.now at) }
{
    past(read_section(s, at, id_of(i)))
}

// Whether an entry is the models' and they have none.
#[tactic(auto, unfolding(crate::specs::Part::lacks_models))]
fn lacks_models(map: BspData, i: u32) -> bool
    ensures { result ≡ Spec.lacks_models map i }
{
    i == 14 && map.models.record_count(BspFileSectionId::Models) == 0
}

// The limit of the section of an entry; there must be a model.
#[tactic(auto, unfolding(crate::specs::Part::limit_at))]
pub fn limit_of(map: BspData, i: u32) -> Answer<usize>
    ensures { position_step result ≡ Spec.limit_at map i }
{
    if exceeds(map, id_of(i)) || lacks_models(map, i) {
        return Err(Refusal::LimitExceeded);
    }
    Ok(8 * (i as usize) + 12)
}

// The texture of a number, whose offset stands at a position; the next offset follows.
#[tactic(auto, unfolding(crate::specs::Part::listed_header_at))]
pub fn past_header(s: &[u8], map: BspData, i: u32, at: usize) -> Answer<usize>
    ensures { position_step result ≡ Spec.listed_header_at s.now map i at }
{
    let base = map.textures.offset;
    read_listed_texture(s, base, at)?;
    Ok((base as usize) + 4 * (i as usize) + 8)
}

// A face, with the counts that its numbers are held to.
#[tactic(auto, unfolding(crate::specs::Part::record_at))]
pub fn past_face(s: &[u8], map: BspData, at: usize) -> Answer<usize>
    ensures { position_step result ≡ Spec.record_at Of.Faces s.now map 0 at }
{
    let planes = map.planes.record_count(BspFileSectionId::Planes);
    let infos = map.texinfo.record_count(BspFileSectionId::TextureInfo);
    past(read_face(s, at, planes, infos))
}

// A face with its extents.
#[tactic(auto, unfolding(crate::specs::Part::record_at))]
pub fn past_extents(s: &[u8], map: BspData, at: usize) -> Answer<usize>
    ensures { position_step result ≡ Spec.record_at Of.Extents s.now map 0 at }
{
    let planes = map.planes.record_count(BspFileSectionId::Planes);
    let infos = map.texinfo.record_count(BspFileSectionId::TextureInfo);
    read_extents(s, at, map, planes, infos)
}

// A render node with the leaves that it names.
#[tactic(auto, unfolding(crate::specs::Part::record_at))]
pub fn past_references(s: &[u8], map: BspData, at: usize) -> Answer<usize>
    ensures { position_step result ≡ Spec.record_at Of.References s.now map 0 at }
{
    let leaves = map.leaves.record_count(BspFileSectionId::Leaves);
    read_references(s, at, leaves)
}
