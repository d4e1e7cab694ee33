// Where loading refuses a file: the section, the record and the byte at which the reader stands that refuses.
#![tactic(auto)]

ghost use Rattle.std.specs.Prelude.{◌≡◌, Ok, Err, IfOk, IfErr};
ghost use Rattle.place.specs.Place as Spec;
ghost use Rattle.place.specs.Private as Parts;
ghost use Rattle.place.specs.Answers.{place_answer, section_number};

pub mod part;
mod read;
mod starts;

use crate::part::{Part, Stop, stop_in};
use crate::starts::{header_stop, textures_stop};
use format::refusal::{Answer, Refusal};
use format::section::{BspData, BspFileSectionId as Id};
use load::extents::check_extents;
use load::section::{
    check_edgelist, check_edges, check_entities, check_facelist, check_planes, check_vertices,
};
use load::tested::{
    check_collision_nodes, check_faces, check_leaf_references, check_leaves, check_models,
    check_render_nodes, check_texinfo,
};
use load::with_texture_count;
use sections::row::check_blob;
use sections::table::{check_limits, read_header};
use textures::load::read_texture_section;

// Why and where loading refuses a file. No section: the header, or the limits that it breaks.
#[derive(Clone, Copy)]
pub struct RefusedAt {
    pub refusal: Refusal,
    pub section: Option<Id>,
    pub stop: Stop,
}

impl RefusedAt {
    // The section's number in the directory; 15 for the header.
    pub fn section_number(self) -> u32
        ensures { result ≡ section_number self.section }
    {
        match self.section {
            Some(id) => id as u32,
            None => 15,
        }
    }
}

// A step of loading that reads the records of a part, with the record where reading stops if it is refused.
fn in_part<T>(step: Answer<T>, file: &[u8], part: Part, map: BspData) -> Result<T, RefusedAt>
    ensures ok { IfOk result (λ v. step ≡ Ok v) }
    ensures err { IfErr result (λ d. (step ≡ Err d.refusal) × (d ≡ Parts.in_part d.refusal file.now part map)) }
{
    step.map_err(|refusal| RefusedAt {
        refusal,
        section: part.section(),
        stop: stop_in(file, part, map),
    })
}

// A step of loading about bytes that are no records, with the section's start if it is refused.
fn at_start<T>(step: Answer<T>, id: Id, map: BspData) -> Result<T, RefusedAt>
    ensures ok { IfOk result (λ v. step ≡ Ok v) }
    ensures err { IfErr result (λ d. (step ≡ Err d.refusal) × (d ≡ Parts.at_start d.refusal id map)) }
{
    step.map_err(|refusal| RefusedAt {
        refusal,
        section: Some(id),
        stop: Stop {
            index: 0,
            byte: map.section(id).offset as usize,
        },
    })
}

// The steps from the vertices on, which read the map record with its texture count.
#[tactic(auto, unfolding(crate::specs::Private::from_vertices, crate::specs::Private::from_texinfo))]
fn place_sections(file: &[u8], map: BspData) -> Result<(), RefusedAt>
    ensures { place_answer result ≡ Parts.from_vertices file.now map }
{
    in_part(
        check_vertices(file, map.vertices),
        file,
        Part::Vertices,
        map,
    )?;
    at_start(check_blob(file, map.visibility), Id::Visibility, map)?;
    in_part(
        check_render_nodes(file, map.render_nodes),
        file,
        Part::RenderNodes,
        map,
    )?;
    in_part(check_texinfo(file, map), file, Part::TextureInfo, map)?;
    in_part(check_faces(file, map), file, Part::Faces, map)?;
    at_start(check_blob(file, map.lightmaps), Id::Lightmaps, map)?;
    place_last(file, map)
}

// The steps from the collision nodes on.
#[tactic(auto, unfolding(crate::specs::Private::from_collision_nodes, crate::specs::Private::from_edges, crate::specs::Private::from_extents))]
fn place_last(file: &[u8], map: BspData) -> Result<(), RefusedAt>
    ensures { place_answer result ≡ Parts.from_collision_nodes file.now map }
{
    in_part(
        check_collision_nodes(file, map.collision_nodes),
        file,
        Part::CollisionNodes,
        map,
    )?;
    in_part(check_leaves(file, map.leaves), file, Part::Leaves, map)?;
    in_part(
        check_facelist(file, map.facelist),
        file,
        Part::FaceList,
        map,
    )?;
    in_part(check_edges(file, map.edges), file, Part::Edges, map)?;
    in_part(
        check_edgelist(file, map.edgelist),
        file,
        Part::EdgeList,
        map,
    )?;
    in_part(check_extents(file, map), file, Part::Extents, map)?;
    in_part(
        check_leaf_references(file, map),
        file,
        Part::References,
        map,
    )?;
    in_part(check_models(file, map.models), file, Part::Models, map)?;
    Ok(())
}

// Where loading refuses a file.
#[tactic(auto, unfolding(crate::specs::Place::place_of, crate::specs::Private::from_vertices, crate::specs::Private::from_texinfo, crate::specs::Private::from_collision_nodes, crate::specs::Private::from_edges, crate::specs::Private::from_extents))]
pub fn load_place(file: &[u8]) -> Result<(), RefusedAt>
    ensures { place_answer result ≡ Spec.place_of file.now }
{
    let (map, _) = read_header(file).map_err(|refusal| RefusedAt {
        refusal,
        section: None,
        stop: header_stop(file),
    })?;
    in_part(check_limits(map), file, Part::Limits, map)?;
    at_start(check_entities(file, map.entities), Id::Entities, map)?;
    in_part(check_planes(file, map.planes), file, Part::Planes, map)?;
    let (count, _) = read_texture_section(file, map.textures).map_err(|refusal| RefusedAt {
        refusal,
        section: Some(Id::Textures),
        stop: textures_stop(file, map),
    })?;
    place_sections(file, with_texture_count(map, count))
}
