// What a walk or a trace reads of a node, of its plane and of an end.
ghost use Rattle.std.specs.Prelude.{◌≡◌};
ghost use Rattle.format.specs.Answers.{answer_of};
ghost use Rattle.math.specs.Plane as Pl;
ghost use Rattle.nodes.specs.Fast as Fast;
ghost use Rattle.nodes.specs.Tables as Spec;

use crate::bytes::plane_bytes_at;
use crate::here::{clip_words, leaf_contents, plane_here, render_words};
use crate::table::{HullTable, Part, Tables};
use format::code::contents_of;
use format::contents::BspLeafContents;
use format::refusal::{Answer, Refusal};
use math::{Hyperplane, HyperplaneSide, Vector3};

// A child, as its word says it: a node by its index, or an end by the word.
#[derive(Clone, Copy)]
pub enum Onto {
    Node(usize),
    End(u16),
}

// A node's plane, and its children's words as one number: the front one's and 65536 times the back one's. A word below 2^15 is a node, any
// other an end.
#[derive(Clone, Copy)]
pub struct Words {
    pub plane: u32,
    pub both: u32,
}

impl Words {
    // The child's word on a side.
    pub fn on(self, front: bool) -> u16
        ensures { result ≡ Fast.word_on self front }
    {
        if front {
            return (self.both % 65536) as u16;
        }
        (self.both / 65536) as u16
    }

    // The child on a side.
    #[inline(always)]
    pub fn onto(self, front: bool) -> Onto
        ensures { result ≡ Fast.onto_word (Fast.word_on self front) }
    {
        let word = self.on(front);
        if word < 32768 {
            return Onto::Node(word as usize);
        }
        Onto::End(word)
    }
}

// The nodes of a box, in the order of `for_bounds`; 65535 is Empty and 65534 Solid.
#[tactic(auto, unfolding(crate::specs::Fast::box_node, format::specs::Code::contents_of), using(crate::proofs::Readers::nth_past))]
fn box_words(index: usize) -> Answer<Words>
    ensures { Fast.words_answer HullTable.Box result ≡ Fast.box_node index }
{
    match index {
        0 => Ok(Words {
            plane: 0,
            both: 131071,
        }),
        1 => Ok(Words {
            plane: 1,
            both: 4294901762,
        }),
        2 => Ok(Words {
            plane: 2,
            both: 262143,
        }),
        3 => Ok(Words {
            plane: 3,
            both: 4294901764,
        }),
        4 => Ok(Words {
            plane: 4,
            both: 393215,
        }),
        5 => Ok(Words {
            plane: 5,
            both: 4294967294,
        }),
        _ => Err(Refusal::NoSuchRecord),
    }
}

// The words of a node of the file: a render node or a clip node.
#[tactic(auto, using(crate::proofs::Readers::no_node, crate::proofs::Readers::render_not, crate::proofs::Readers::clip_not, crate::proofs::Places::within))]
fn file_words(s: &[u8], nodes: Part, render: bool, index: usize) -> Answer<Words>
    ensures { Fast.words_answer (Spec.file_table render) result ≡ Fast.node_in (Spec.file_table render) s.now nodes index }
{
    if (nodes.count as usize) <= index {
        return Err(Refusal::NoSuchRecord);
    }
    if render {
        return render_words(s, nodes.place(24, s.len(), index)?);
    }
    clip_words(s, nodes.place(8, s.len(), index)?)
}

// The words of a node.
#[tactic(auto, unfolding(crate::specs::Fast::words_answer, crate::specs::Fast::node_at))]
pub fn read_words(s: &[u8], t: Tables, index: usize) -> Answer<Words>
    ensures { Fast.words_answer t.table result ≡ Fast.node_at s.now t index }
{
    let table = t.table;
    if table.is_box() {
        return box_words(index);
    }
    file_words(s, t.nodes, table.is_render(), index)
}

// Whether a side is the positive one.
#[tactic(auto, using(math::proofs::Same::equal_sides, crate::proofs::Planes::front_side))]
pub fn is_front(side: HyperplaneSide) -> bool
    ensures { Pl.side_if result ≡ side }
{
    side == HyperplaneSide::Positive
}

// The planes of a box, in the order of `for_bounds`.
#[tactic(auto, unfolding(crate::specs::Fast::box_plane, format::specs::Answers::answer_of))]
fn box_plane(mins: Vector3, maxs: Vector3, index: usize) -> Answer<Hyperplane>
    ensures { answer_of result ≡ Fast.box_plane mins maxs index }
{
    match index {
        0 => Ok(Hyperplane::axis_x(maxs.x)),
        1 => Ok(Hyperplane::axis_x(mins.x)),
        2 => Ok(Hyperplane::axis_y(maxs.y)),
        3 => Ok(Hyperplane::axis_y(mins.y)),
        4 => Ok(Hyperplane::axis_z(maxs.z)),
        5 => Ok(Hyperplane::axis_z(mins.z)),
        _ => Err(Refusal::NoSuchRecord),
    }
}

// The plane of an index.
#[tactic(auto, using(crate::proofs::Planes::no_plane, crate::proofs::Planes::box_plane_lem, crate::proofs::Places::within))]
pub fn plane_at(s: &[u8], t: Tables, index: usize) -> Answer<Hyperplane>
    ensures { answer_of result ≡ Fast.plane_in s.now t index }
{
    let table = t.table;
    let planes = t.planes;
    if (planes.count as usize) <= index {
        return Err(Refusal::IndexOutsideTable);
    }
    if table.is_box() {
        return box_plane(t.mins, t.maxs, index);
    }
    let at = planes.place(20, s.len(), index)?;
    Ok(plane_here(plane_bytes_at(s, at)))
}

// How far two points are from the plane of an index.
#[tactic(auto, unfolding(crate::specs::Fast::dists_from, crate::specs::Fast::two_dists))]
pub fn dists_at(s: &[u8], t: Tables, index: usize, p: Vector3, q: Vector3) -> Answer<(f32, f32)>
    ensures { answer_of result ≡ Fast.dists_from p q (Fast.plane_in s.now t index) }
{
    let plane = plane_at(s, t, index)?;
    Ok((plane.point_dist(p), plane.point_dist(q)))
}

// On which side of the plane of an index a point lies.
#[tactic(auto, unfolding(crate::specs::Fast::side_from))]
pub fn side_at(s: &[u8], t: Tables, index: usize, p: Vector3) -> Answer<bool>
    ensures { Fast.sided_answer result ≡ Fast.side_from p (Fast.plane_in s.now t index) }
{
    let plane = plane_at(s, t, index)?;
    Ok(is_front(plane.point_side(p)))
}

// The contents at an end, when it is met: 30, then 23; a word that is no contents is 23.
#[tactic(auto, using(crate::proofs::Readers::no_leaf, crate::proofs::Readers::leaf_not, crate::proofs::Readers::code_met, crate::proofs::Places::within))]
pub fn end_contents(s: &[u8], t: Tables, word: u16) -> Answer<BspLeafContents>
    ensures { answer_of result ≡ Fast.contents_met s.now t word }
{
    let table = t.table;
    let leaves = t.leaves;
    if table.is_render() {
        let leaf = (65535 - word) as usize;
        if (leaves.count as usize) <= leaf {
            return Err(Refusal::IndexOutsideTable);
        }
        return leaf_contents(s, leaves.place(28, s.len(), leaf)?);
    }
    contents_of(65536 - (word as u32)).ok_or(Refusal::Unreadable)
}
