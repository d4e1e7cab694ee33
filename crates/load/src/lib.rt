// Loads a BSP29 map from the lent bytes of its file.
#![tactic(auto)]

ghost use Rattle.std.specs.Prelude.{◌≡◌};
ghost use Rattle.load.specs.Load.{load_of, counted};
ghost use Rattle.load.specs.Answers.{loaded_answer, loaded_step};
ghost use Rattle.load.specs.Private.{from_vertices, from_collision_nodes};

pub mod extents;
pub mod section;
pub mod tested;

use crate::extents::check_extents;
use crate::section::{
    check_edgelist, check_edges, check_entities, check_facelist, check_planes, check_vertices,
};
use crate::tested::{
    check_collision_nodes, check_faces, check_leaf_references, check_leaves, check_models,
    check_render_nodes, check_texinfo,
};
use format::refusal::Answer;
use format::section::BspData;
use sections::row::check_blob;
use sections::table::{check_limits, read_header};
use textures::load::read_texture_section;

// The map record with its texture count.
pub fn with_texture_count(map: BspData, texture_count: u32) -> BspData
    ensures { result ≡ counted map texture_count }
{
    BspData {
        texture_count,
        ..map
    }
}

// The steps from the vertices on, which read the map record with its texture count.
#[tactic(auto, unfolding(crate::specs::Private::from_vertices, crate::specs::Private::from_texinfo))]
fn load_sections(file: &[u8], map: BspData) -> Answer<BspData>
    ensures { loaded_step result ≡ from_vertices file.now map }
{
    check_vertices(file, map.vertices)?;
    check_blob(file, map.visibility)?;
    check_render_nodes(file, map.render_nodes)?;
    check_texinfo(file, map)?;
    check_faces(file, map)?;
    check_blob(file, map.lightmaps)?;
    load_last(file, map)
}

// The steps from the collision nodes on.
#[tactic(auto, unfolding(crate::specs::Private::from_collision_nodes, crate::specs::Private::from_edges, crate::specs::Private::from_extents))]
fn load_last(file: &[u8], map: BspData) -> Answer<BspData>
    ensures { loaded_step result ≡ from_collision_nodes file.now map }
{
    check_collision_nodes(file, map.collision_nodes)?;
    check_leaves(file, map.leaves)?;
    check_facelist(file, map.facelist)?;
    check_edges(file, map.edges)?;
    check_edgelist(file, map.edgelist)?;
    check_extents(file, map)?;
    check_leaf_references(file, map)?;
    check_models(file, map.models)?;
    Ok(map)
}

// Loads a file: its map record, or the first refusal that its bytes give.
#[tactic(auto, unfolding(crate::specs::Load::load_at, crate::specs::Private::from_vertices, crate::specs::Private::from_texinfo, crate::specs::Private::from_collision_nodes, crate::specs::Private::from_edges, crate::specs::Private::from_extents))]
pub fn load(file: &[u8]) -> Answer<BspData>
    ensures { loaded_answer result ≡ load_of file.now }
{
    let (map, _) = read_header(file)?;
    check_limits(map)?;
    check_entities(file, map.entities)?;
    check_planes(file, map.planes)?;
    let (texture_count, _) = read_texture_section(file, map.textures)?;
    load_sections(file, with_texture_count(map, texture_count))
}
