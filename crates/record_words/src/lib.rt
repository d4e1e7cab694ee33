// The words of each record, in the order of its fields in the Rust.
#![tactic(auto)]

ghost use Rattle.std.specs.Prelude.{◌≡◌};
ghost use Rattle.record_words.specs.Layout as Layout;

use faces::face::{BspFace, BspFaceSide};
use math::Vector3;
use models::model::BspModel;
use records::edge::{BspEdge, BspEdgeDirection, BspEdgeIndex};
use records::leaf::BspLeaf;
use records::node::{BspCollisionNode, BspCollisionNodeChild, BspRenderNode, BspRenderNodeChild};
use records::texinfo::BspTexInfo;
use records::triple::Point;
use words::{flag_word, float_word, signed_word};

pub fn vector_words(v: Vector3) -> [u64; 3]
    ensures { result ≡ Layout.vector_words v }
{
    [float_word(v.x), float_word(v.y), float_word(v.z)]
}

fn point_words(p: Point) -> [u64; 3]
    ensures { result ≡ Layout.point_words p }
{
    [signed_word(p.x), signed_word(p.y), signed_word(p.z)]
}

// The two child enums have a tag and a number each: a trait for them would be no plainer than the four functions.
// 0 for a node, 1 for a leaf.
fn render_child_tag(child: BspRenderNodeChild) -> u64
    ensures { result ≡ Layout.render_child_tag child }
{
    match child {
        BspRenderNodeChild::Node(_) => 0,
        BspRenderNodeChild::Leaf(_) => 1,
    }
}

fn render_child_number(child: BspRenderNodeChild) -> u64
    ensures { result ≡ Layout.render_child_number child }
{
    let (BspRenderNodeChild::Node(n) | BspRenderNodeChild::Leaf(n)) = child;
    n as u64
}

pub fn render_node_words(node: BspRenderNode) -> [u64; 13]
    ensures { result ≡ Layout.render_node_words node }
{
    let [min_x, min_y, min_z] = point_words(node.min);
    let [max_x, max_y, max_z] = point_words(node.max);
    [
        node.plane_id as u64,
        render_child_tag(node.front),
        render_child_number(node.front),
        render_child_tag(node.back),
        render_child_number(node.back),
        min_x,
        min_y,
        min_z,
        max_x,
        max_y,
        max_z,
        node.face_id as u64,
        node.face_count as u64,
    ]
}

pub fn texinfo_words(info: BspTexInfo) -> [u64; 10]
    ensures { result ≡ Layout.texinfo_words info }
{
    [
        float_word(info.s_vector.x),
        float_word(info.s_vector.y),
        float_word(info.s_vector.z),
        float_word(info.s_offset),
        float_word(info.t_vector.x),
        float_word(info.t_vector.y),
        float_word(info.t_vector.z),
        float_word(info.t_offset),
        info.tex_id as u64,
        flag_word(info.special),
    ]
}

// 0 for a node, 1 for contents.
fn collision_child_tag(child: BspCollisionNodeChild) -> u64
    ensures { result ≡ Layout.collision_child_tag child }
{
    match child {
        BspCollisionNodeChild::Node(_) => 0,
        BspCollisionNodeChild::Contents(_) => 1,
    }
}

fn collision_child_number(child: BspCollisionNodeChild) -> u64
    ensures { result ≡ Layout.collision_child_number child }
{
    match child {
        BspCollisionNodeChild::Node(n) => n as u64,
        BspCollisionNodeChild::Contents(c) => c.code() as u64,
    }
}

pub fn collision_node_words(node: BspCollisionNode) -> [u64; 5]
    ensures { result ≡ Layout.collision_node_words node }
{
    [
        node.plane_id as u64,
        collision_child_tag(node.front),
        collision_child_number(node.front),
        collision_child_tag(node.back),
        collision_child_number(node.back),
    ]
}

// 2^64 - 1 for none.
fn offset_word(offset: Option<usize>) -> u64
    ensures { result ≡ Layout.offset_word offset }
{
    offset.map_or(u64::MAX, |at| at as u64)
}

pub fn leaf_words(leaf: BspLeaf) -> [u64; 14]
    ensures { result ≡ Layout.leaf_words leaf }
{
    let [min_x, min_y, min_z] = point_words(leaf.min);
    let [max_x, max_y, max_z] = point_words(leaf.max);
    [
        leaf.contents.code() as u64,
        offset_word(leaf.vis_offset),
        min_x,
        min_y,
        min_z,
        max_x,
        max_y,
        max_z,
        leaf.facelist_id as u64,
        leaf.facelist_count as u64,
        leaf.sounds.water as u64,
        leaf.sounds.sky as u64,
        leaf.sounds.slime as u64,
        leaf.sounds.lava as u64,
    ]
}

// 0 front, 1 back.
fn side_word(side: BspFaceSide) -> u64
    ensures { result ≡ Layout.side_word side }
{
    side as u64
}

pub fn face_words(face: BspFace) -> [u64; 14]
    ensures { result ≡ Layout.face_words face }
{
    [
        face.plane_id as u64,
        side_word(face.side),
        face.edge_id as u64,
        face.edge_count as u64,
        face.texinfo_id as u64,
        face.light_styles.style_0 as u64,
        face.light_styles.style_1 as u64,
        face.light_styles.style_2 as u64,
        face.light_styles.style_3 as u64,
        offset_word(face.lightmap_id),
        signed_word(face.texture_mins.s),
        signed_word(face.texture_mins.t),
        signed_word(face.extents.s),
        signed_word(face.extents.t),
    ]
}

pub fn edge_words(edge: BspEdge) -> [u64; 2]
    ensures { result ≡ Layout.edge_words edge }
{
    [edge.vertex_id_0 as u64, edge.vertex_id_1 as u64]
}

// 0 forward, 1 backward.
fn direction_word(direction: BspEdgeDirection) -> u64
    ensures { result ≡ Layout.direction_word direction }
{
    direction as u64
}

pub fn edge_index_words(entry: BspEdgeIndex) -> [u64; 2]
    ensures { result ≡ Layout.edge_index_words entry }
{
    [direction_word(entry.direction), entry.index as u64]
}

pub fn model_words(model: BspModel) -> [u64; 20]
    ensures { result ≡ Layout.model_words model }
{
    [
        float_word(model.min.x),
        float_word(model.min.y),
        float_word(model.min.z),
        float_word(model.max.x),
        float_word(model.max.y),
        float_word(model.max.z),
        float_word(model.origin.x),
        float_word(model.origin.y),
        float_word(model.origin.z),
        model.collision_node_ids.hull_0 as u64,
        model.collision_node_ids.hull_1 as u64,
        model.collision_node_ids.hull_2 as u64,
        model.collision_node_counts.hull_0 as u64,
        model.collision_node_counts.hull_1 as u64,
        model.collision_node_counts.hull_2 as u64,
        model.leaf_id as u64,
        model.leaf_count as u64,
        model.face_id as u64,
        model.face_count as u64,
        model.leaves().last as u64,
    ]
}
