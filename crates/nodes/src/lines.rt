// The readers of traces and whole-line traces (docs/DECISIONS.md 64, 102), where the file has all records of the nodes and the planes: the points are
// lists of three.
ghost use Rattle.std.specs.Prelude.{◌≡◌};
ghost use Rattle.math.specs.Plane as Pl;
ghost use Rattle.nodes.specs.Fast as Fast;
ghost use Rattle.nodes.specs.Quick as Quick;
ghost use Rattle.nodes.specs.Walks as Walks;

use crate::bytes::{f32_at, u32_at};
use crate::here::normal_of;
use crate::quick::{leaf_code, word_code};
use crate::read::Words;
use crate::table::Tables;
use crate::whole::Sections;
use format::refusal::Answer;
use math::{Hyperplane, Vector3};

// The point of three coordinates.
pub fn point_of(p: &[f32; 3]) -> Vector3
    ensures { result ≡ Fast.point_of p.now }
{
    Vector3 {
        x: p[0],
        y: p[1],
        z: p[2],
    }
}

// How far a point is from a slanted plane, or from one whose type is none: a call, as `ends_slanted`.
#[inline(never)]
fn dist_slanted(bytes: &[u8; 20], point: &[f32; 3]) -> f32
    ensures { result ≡ Pl.point_dist (Pl.new_plane (Fast.normal bytes.now 0) (Fast.f32 bytes.now 12)) (Fast.point_of point.now) }
{
    Hyperplane::new(normal_of(bytes), f32_at(bytes, 12)).point_dist(point_of(point))
}

// The child's word on the side of the point's distance from a plane: 0 is the front, a NaN the back.
#[inline(always)]
fn word_by_distance(bytes: &[u8; 20], words: Words, point: &[f32; 3]) -> u16
    ensures { result ≡ Walks.word_at words (Pl.from_dist (Pl.point_dist (Fast.plane_here bytes.now 0) (Fast.point_of point.now))) }
{
    let kind = u32_at(bytes, 16);
    if kind < 3 {
        let dist = f32_at(bytes, 12);
        return words.on(point[kind as usize] - dist >= 0.0);
    }
    words.on(dist_slanted(bytes, point) >= 0.0)
}

// How far two points are from a slanted plane, or from one whose type is none: a call, so that what a way down goes by stays in registers.
#[inline(never)]
fn ends_slanted(bytes: &[u8; 20], p: &[f32; 3], q: &[f32; 3]) -> (f32, f32)
    ensures { result ≡ Fast.two_dists (Fast.point_of p.now) (Fast.point_of q.now) (Pl.new_plane (Fast.normal bytes.now 0) (Fast.f32 bytes.now 12)) }
{
    let plane = Hyperplane::new(normal_of(bytes), f32_at(bytes, 12));
    (plane.point_dist(point_of(p)), plane.point_dist(point_of(q)))
}

// How far two points are from a plane. (The points are lists of three, so that the coordinate along an axis is found by its number and not by a
// branch: docs/DECISIONS.md 102.)
#[inline(always)]
fn ends_apart(bytes: &[u8; 20], p: &[f32; 3], q: &[f32; 3]) -> (f32, f32)
    ensures { result ≡ Fast.two_dists (Fast.point_of p.now) (Fast.point_of q.now) (Fast.plane_here bytes.now 0) }
{
    let kind = u32_at(bytes, 16);
    if kind < 3 {
        let dist = f32_at(bytes, 12);
        return (p[kind as usize] - dist, q[kind as usize] - dist);
    }
    ends_slanted(bytes, p, q)
}

// The code of the contents at an end, 0 where it is refused: no code is 0. (It is the number in the file: nothing is looked up.)
#[tactic(auto, using(crate::proofs::LeafCodes::of_word, crate::proofs::LeafCodes::no_code, crate::proofs::LeafCodes::code_not, crate::proofs::LeafCodes::code_at, crate::proofs::Places::within))]
#[inline(always)]
pub fn end_number(s: &[u8], t: Tables, word: u16) -> u32
    ensures { result ≡ Quick.code_or (Fast.contents_met s.now t word) }
{
    let table = t.table;
    if !table.is_render() {
        return word_code(word);
    }
    let leaves = t.leaves;
    let leaf = (65535 - word) as usize;
    if (leaves.count as usize) <= leaf {
        return 0;
    }
    match leaves.place(28, s.len(), leaf) {
        Err(_) => 0,
        Ok(at) => leaf_code(s, at),
    }
}

impl<'a> Sections<'a> {
    // A node's words, and how far two points are from its plane, from the bytes of the two sections: a coordinate is found by its number and not by
    // a branch (docs/DECISIONS.md 102). 20: there is no such node.
    #[tactic(auto, using(crate::proofs::Handed::none_found))]
    #[inline(always)]
    pub fn ends_in(&self, index: usize, p: &[f32; 3], q: &[f32; 3]) -> Answer<(Words, f32, f32)>
        ensures { Walks.MadeOf (Walks.node_and_dists (Fast.point_of p.now) (Fast.point_of q.now)) self.now.render self.now.nodes.now self.now.planes.now index (λ t. Walks.segment_answer t result) }
    {
        let (words, plane) = self.found_in(index)?;
        let (a, b) = ends_apart(plane, p, q);
        Ok((words, a, b))
    }

    // The child's word on the side of the point's distance from a node's plane. 20: there is no such node.
    #[tactic(auto, using(crate::proofs::Handed::none_found))]
    #[inline(always)]
    pub fn look_in(&self, index: usize, point: &[f32; 3]) -> Answer<u16>
        ensures { Walks.MadeOf (Walks.child_by_distance (Fast.point_of point.now)) self.now.render self.now.nodes.now self.now.planes.now index (λ t. Walks.onward_answer t result) }
    {
        let (words, plane) = self.found_in(index)?;
        Ok(word_by_distance(plane, words, point))
    }
}
