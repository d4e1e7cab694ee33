// The version, the table of sections and the limits.
ghost use Rattle.std.specs.Prelude.{◌≡◌};
ghost use Rattle.std.specs.List.{list_any};
ghost use Rattle.format.specs.Answers.{step_of};
ghost use Rattle.sections.specs.Answers.{checked_step};
ghost use Rattle.sections.specs.Table as Table;

use format::field::{Read, read_i32, read_index};
use format::refusal::{Answer, Refusal};
use format::section::{BspData, BspFileSection, BspFileSectionId};

// One section of the table, whose size is that of whole elements.
#[tactic(auto, unfolding(crate::specs::Table::section_at, crate::specs::Table::is_multiple))]
pub fn read_section(s: &[u8], at: usize, id: BspFileSectionId) -> Read<BspFileSection>
    ensures { step_of result ≡ Table.section_at id s.now at }
{
    let (offset, p) = read_index(s, at, Refusal::NegativeSectionOffset)?;
    let (size, next) = read_index(s, p, Refusal::NegativeSectionSize)?;
    if size.is_multiple_of(id.element_size()) {
        return Ok((BspFileSection { offset, size }, next));
    }
    Err(Refusal::InvalidSectionSize)
}

// The fifteen sections, in the order of the table. The texture count is not known yet.
#[tactic(auto, unfolding(crate::specs::Table::table_at, crate::specs::Table::table_end_at, crate::specs::Table::three_sections_at))]
fn read_table(s: &[u8], at: usize) -> Read<BspData>
    ensures { step_of result ≡ Table.table_at s.now at }
{
    let (entities, p) = read_section(s, at, BspFileSectionId::Entities)?;
    let (planes, p) = read_section(s, p, BspFileSectionId::Planes)?;
    let (textures, p) = read_section(s, p, BspFileSectionId::Textures)?;
    let (vertices, p) = read_section(s, p, BspFileSectionId::Vertices)?;
    let (visibility, p) = read_section(s, p, BspFileSectionId::Visibility)?;
    let (render_nodes, p) = read_section(s, p, BspFileSectionId::RenderNodes)?;
    let (texinfo, p) = read_section(s, p, BspFileSectionId::TextureInfo)?;
    let (faces, p) = read_section(s, p, BspFileSectionId::Faces)?;
    let (lightmaps, p) = read_section(s, p, BspFileSectionId::Lightmaps)?;
    let (collision_nodes, p) = read_section(s, p, BspFileSectionId::CollisionNodes)?;
    let (leaves, p) = read_section(s, p, BspFileSectionId::Leaves)?;
    let (facelist, p) = read_section(s, p, BspFileSectionId::FaceList)?;
    let (edges, p) = read_section(s, p, BspFileSectionId::Edges)?;
    let (edgelist, p) = read_section(s, p, BspFileSectionId::EdgeList)?;
    let (models, end) = read_section(s, p, BspFileSectionId::Models)?;
    let map = BspData {
        entities,
        planes,
        textures,
        vertices,
        visibility,
        render_nodes,
        texinfo,
        faces,
        lightmaps,
        collision_nodes,
        leaves,
        facelist,
        edges,
        edgelist,
        models,
        texture_count: 0,
    };
    Ok((map, end))
}

// The sections that have a limit, which is tested before they are read.
const LIMITED: [BspFileSectionId; 9] = [
    BspFileSectionId::Planes,
    BspFileSectionId::Vertices,
    BspFileSectionId::Visibility,
    BspFileSectionId::RenderNodes,
    BspFileSectionId::CollisionNodes,
    BspFileSectionId::Leaves,
    BspFileSectionId::Edges,
    BspFileSectionId::EdgeList,
    BspFileSectionId::Models,
];

// The version, and then the table.
#[tactic(auto, using(crate::proofs::Version::yes_29, crate::proofs::Version::no_29), unfolding(crate::specs::Table::header_at))]
pub fn read_header(s: &[u8]) -> Read<BspData>
    ensures { step_of result ≡ Table.header_at s.now }
{
    let (version, p) = read_i32(s, 0)?;
    if version == 29 {
        return read_table(s, p);
    }
    Err(Refusal::UnsupportedVersion)
}

// Whether a section has more elements than its limit.
#[tactic(auto, unfolding(crate::specs::Table::exceeds))]
pub fn exceeds(m: BspData, id: BspFileSectionId) -> bool
    ensures { result ≡ Table.exceeds id m }
{
    !id.within_limit(m.section(id).record_count(id))
}

// Whether a section that has a limit has more elements than that.
fn exceeds_any(m: BspData) -> bool
    ensures { result ≡ list_any (λ id. Table.exceeds id m) LIMITED }
{
    LIMITED.iter().any(|id| exceeds(m, *id))
}

// Every section is within its limit, and there is a model.
#[tactic(auto, unfolding(crate::specs::Table::limits, crate::specs::Table::limits_from_leaves))]
pub fn check_limits(m: BspData) -> Answer<()>
    ensures { checked_step result ≡ Table.limits m }
{
    if exceeds_any(m) || m.models.record_count(BspFileSectionId::Models) == 0 {
        return Err(Refusal::LimitExceeded);
    }
    Ok(())
}
