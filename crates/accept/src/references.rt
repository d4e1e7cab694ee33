// The references of faces, leaves and models; the visibility rows come after them. A file and its map record are handed on as two, here and in the
// other files: the accessors of the records, which C calls too, take them so, and a struct of both would be taken apart at each call of one.
ghost use Rattle.std.specs.Prelude.{◌≡◌, ◌+◌, ◌<◌, ◌^◌};
ghost use Rattle.format.specs.Answers.{answer_of};
ghost use Rattle.format.specs.Section.{record_count};
ghost use Rattle.format.specs.declared.section.BspFileSectionId.TheVariants as Id;
ghost use Rattle.accept.specs.Accept as Acc;

use crate::check::{check_each, check_records, inside, within};
use crate::row::check_rows;
use faces::face::{BspFace, file_face};
use format::refusal::Answer;
use format::section::{BspData, BspFileSectionId};
use models::model::file_model;
use records::edge::{BspEdge, edge, edgelist};
use records::leaf::leaf;

// An edge's two vertices.
fn check_vertices(map: BspData, edge: BspEdge) -> Answer<()>
    ensures { answer_of result ≡ Acc.also (Acc.inside edge.vertex_id_0 (record_count Id.Vertices map.vertices)) (Acc.inside edge.vertex_id_1 (record_count Id.Vertices map.vertices)) }
{
    let count = map.vertices.record_count(BspFileSectionId::Vertices);
    inside(edge.vertex_id_0 as usize, count)?;
    inside(edge.vertex_id_1 as usize, count)
}

// The edge of a number, and its vertices.
fn check_edge_named(file: &[u8], map: BspData, index: usize) -> Answer<()>
    ensures { answer_of result ≡ Acc.edge_named file.now map index }
{
    inside(index, map.edges.record_count(BspFileSectionId::Edges))?;
    check_vertices(map, edge(file, map, index)?)
}

// An entry of the list of edges.
#[tactic(auto, unfolding(crate::specs::Accept::edge_check))]
fn check_edge(file: &[u8], map: BspData, index: usize) -> Answer<()>
    ensures { answer_of result ≡ Acc.edge_check file.now map index }
{
    check_edge_named(file, map, edgelist(file, map, index)?.index)
}

// A part of the list of edges.
fn check_edges(file: &[u8], map: BspData, first: usize, count: usize) -> Answer<()>
    requires { first + count < 2 ^ 63 }
    ensures { answer_of result ≡ Acc.each (Acc.edge_check file.now map) count first }
{
    check_each(first, first + count, |i| check_edge(file, map, i))
}

// A face's plane, texture info, edge-list range and edges.
#[tactic(auto, using(crate::proofs::Ways::end_small))]
fn check_face_references(file: &[u8], map: BspData, face: BspFace) -> Answer<()>
    ensures { answer_of result ≡ Acc.face_references file.now map face }
{
    let planes = map.planes.record_count(BspFileSectionId::Planes);
    inside(face.plane_id, planes)?;
    let infos = map.texinfo.record_count(BspFileSectionId::TextureInfo);
    inside(face.texinfo_id, infos)?;
    let total = map.edgelist.record_count(BspFileSectionId::EdgeList);
    within(face.edge_id, face.edge_count, total)?;
    check_edges(file, map, face.edge_id, face.edge_count)
}

#[tactic(auto, unfolding(crate::specs::Accept::face_check))]
fn check_face(file: &[u8], map: BspData, index: usize) -> Answer<()>
    ensures { answer_of result ≡ Acc.face_check file.now map index }
{
    check_face_references(file, map, file_face(file, map, index)?)
}

// A leaf's face-list range. `check_model_faces` has its shape, and says why they are two.
#[tactic(auto, unfolding(crate::specs::Accept::leaf_faces))]
fn check_leaf(file: &[u8], map: BspData, index: usize) -> Answer<()>
    ensures { answer_of result ≡ Acc.leaf_faces file.now map index }
{
    let leaf = leaf(file, map, index)?;
    let total = map.facelist.record_count(BspFileSectionId::FaceList);
    within(leaf.facelist_id, leaf.facelist_count, total)
}

// A model's face range. `check_leaf` differs in the record, its fields and the table: one function for both would take them as closures, and be
// no plainer.
#[tactic(auto, unfolding(crate::specs::Accept::model_faces))]
fn check_model_faces(file: &[u8], map: BspData, index: usize) -> Answer<()>
    ensures { answer_of result ≡ Acc.model_faces file.now map index }
{
    let own = file_model(file, map, index)?;
    let total = map.faces.record_count(BspFileSectionId::Faces);
    within(own.face_id, own.face_count, total)
}

// Every model's inclusive leaf range. The leaf counts of the models before are added up along the way.
#[tactic(auto, using(crate::proofs::Checks::done, crate::proofs::Checks::more, crate::proofs::Checks::stop, crate::proofs::Ways::last_leaf, crate::proofs::Ways::no_model, crate::proofs::Ways::sum_small, models::proofs::Models::step, format::proofs::Answers::handed_on))]
fn check_models_leaves(file: &[u8], map: BspData) -> Answer<()>
    ensures { answer_of result ≡ Acc.each (Acc.model_leaves file.now map) (record_count Id.Models map.models) 0 }
{
    let count = map.models.record_count(BspFileSectionId::Models) as usize;
    let leaves = map.leaves.record_count(BspFileSectionId::Leaves);
    let mut last = 0;
    for i in 0..count {
        last += file_model(file, map, i)?.leaf_count as usize;
        inside(last, leaves)?;
    }
    Ok(())
}

// All of them, in their order.
#[tactic(auto, unfolding(crate::specs::Accept::references))]
pub fn check_references(file: &[u8], map: BspData) -> Answer<()>
    ensures { answer_of result ≡ Acc.references file.now map }
{
    check_records(map, BspFileSectionId::Faces, |i| check_face(file, map, i))?;
    check_records(map, BspFileSectionId::Leaves, |i| check_leaf(file, map, i))?;
    check_records(map, BspFileSectionId::Models, |i| {
        check_model_faces(file, map, i)
    })?;
    check_models_leaves(file, map)?;
    check_rows(file, map)
}
