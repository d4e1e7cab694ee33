// The sections with tested fields, record by record, and the leaves that render nodes name.
ghost use Rattle.std.specs.Prelude.{◌≡◌};
ghost use Rattle.format.specs.Answers.{step_of};
ghost use Rattle.format.specs.declared.section.BspFileSectionId.TheVariants as Id;
ghost use Rattle.records.specs.Leaf.{leaf_at};
ghost use Rattle.models.specs.Model.{file_model_at};
ghost use Rattle.records.specs.Node.{render_node_at, collision_node_at};
ghost use Rattle.sections.specs.Answers.{position_step};
ghost use Rattle.sections.specs.Records as Records;
ghost use Rattle.load.specs.Tested.{textured, texinfos, faces, outside, references_at, leaf_references};

use faces::face::FaceReader;
use format::field::Read;
use format::reader::Reader;
use format::refusal::{Answer, Refusal};
use format::section::{BspData, BspFileSection, BspFileSectionId};
use models::model::FileModelReader;
use records::leaf::LeafReader;
use records::node::{BspRenderNodeChild, CollisionNodeReader, RenderNodeReader, read_render_node};
use records::texinfo::{BspTexInfo, read_texinfo};
use sections::row::{check_records, read_records};

// A step of loading is one line over `check_records`: its section and its reader. Each has a name of its own, since `load` and `place` both take
// it, and so each section and its reader stand together once.
pub fn check_render_nodes(s: &[u8], section: BspFileSection) -> Answer<usize>
    ensures { position_step result ≡ Records.section render_node_at Id.RenderNodes s.now section }
{
    check_records(s, section, BspFileSectionId::RenderNodes, RenderNodeReader)
}

// A texture info, whose texture number must not be the texture count: on it the Rust panics.
#[tactic(auto, unfolding(crate::specs::Tested::textured))]
pub fn read_textured(s: &[u8], at: usize, texture_count: u32) -> Read<BspTexInfo>
    ensures { step_of result ≡ textured texture_count s.now at }
{
    let (info, next) = read_texinfo(s, at, texture_count)?;
    if info.tex_id == texture_count as usize {
        return Err(Refusal::InvalidIndex);
    }
    Ok((info, next))
}

// The reader of texture infos on loading, in a map of so many textures.
#[derive(Clone, Copy)]
struct TexturedReader {
    texture_count: u32,
}

impl Reader for TexturedReader {
    type Record = BspTexInfo;

    ghost reads = { λ reader. textured reader.texture_count };

    #[inline(always)]
    fn read(self, s: &[u8], at: usize) -> Read<BspTexInfo> {
        read_textured(s, at, self.texture_count)
    }
}

#[tactic(auto, unfolding(crate::specs::Tested::texinfos))]
pub fn check_texinfo(s: &[u8], map: BspData) -> Answer<usize>
    ensures { position_step result ≡ texinfos s.now map }
{
    let reader = TexturedReader {
        texture_count: map.texture_count,
    };
    check_records(s, map.texinfo, BspFileSectionId::TextureInfo, reader)
}

#[tactic(auto, unfolding(crate::specs::Tested::faces))]
pub fn check_faces(s: &[u8], map: BspData) -> Answer<usize>
    ensures { position_step result ≡ faces s.now map }
{
    let reader = FaceReader {
        plane_count: map.planes.record_count(BspFileSectionId::Planes),
        texinfo_count: map.texinfo.record_count(BspFileSectionId::TextureInfo),
    };
    check_records(s, map.faces, BspFileSectionId::Faces, reader)
}

pub fn check_collision_nodes(s: &[u8], section: BspFileSection) -> Answer<usize>
    ensures { position_step result ≡ Records.section collision_node_at Id.CollisionNodes s.now section }
{
    check_records(
        s,
        section,
        BspFileSectionId::CollisionNodes,
        CollisionNodeReader,
    )
}

pub fn check_leaves(s: &[u8], section: BspFileSection) -> Answer<usize>
    ensures { position_step result ≡ Records.section leaf_at Id.Leaves s.now section }
{
    check_records(s, section, BspFileSectionId::Leaves, LeafReader)
}

pub fn check_models(s: &[u8], section: BspFileSection) -> Answer<usize>
    ensures { position_step result ≡ Records.section file_model_at Id.Models s.now section }
{
    check_records(s, section, BspFileSectionId::Models, FileModelReader)
}

// Whether a child is a leaf outside the table of leaves.
#[tactic(auto, unfolding(crate::specs::Tested::outside))]
fn is_outside(child: BspRenderNodeChild, leaves: u32) -> bool
    ensures { result ≡ outside leaves child }
{
    match child {
        BspRenderNodeChild::Node(_) => false,
        BspRenderNodeChild::Leaf(leaf) => (leaves as usize) <= leaf,
    }
}

// A render node, whose children that are leaves must be in the table of leaves.
#[tactic(auto, unfolding(crate::specs::Tested::references_at))]
pub fn read_references(s: &[u8], at: usize, leaves: u32) -> Answer<usize>
    ensures { position_step result ≡ references_at leaves s.now at }
{
    let (node, next) = read_render_node(s, at)?;
    if is_outside(node.front, leaves) || is_outside(node.back, leaves) {
        return Err(Refusal::InvalidIndex);
    }
    Ok(next)
}

// The reader of render nodes for their leaves, in a map of so many leaves.
#[derive(Clone, Copy)]
struct ReferencesReader {
    leaves: u32,
}

impl Reader for ReferencesReader {
    type Record = ();

    ghost reads = { λ reader. references_at reader.leaves };

    #[inline(always)]
    fn read(self, s: &[u8], at: usize) -> Read<()> {
        read_references(s, at, self.leaves).map(|next| ((), next))
    }
}

// Every leaf that a render node names is in the table of leaves.
#[tactic(auto, unfolding(crate::specs::Tested::leaf_references))]
pub fn check_leaf_references(s: &[u8], map: BspData) -> Answer<usize>
    ensures { position_step result ≡ leaf_references s.now map }
{
    let nodes = map.render_nodes;
    let count = nodes.record_count(BspFileSectionId::RenderNodes);
    let reader = ReferencesReader {
        leaves: map.leaves.record_count(BspFileSectionId::Leaves),
    };
    read_records(s, nodes.offset as usize, count, reader)
}
