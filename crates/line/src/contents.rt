// The contents at a point, by the side of its distance at each plane: where the distance is a NaN, the back.
ghost use Rattle.std.specs.Prelude.{◌≡◌};
ghost use Rattle.format.specs.Answers.{answer_of};
ghost use Rattle.nodes.specs.Fast as Fast;
ghost use Rattle.nodes.specs.Walks as Walks;
ghost use Rattle.line.specs.Line as Line;
ghost use Rattle.line.specs.Private as Private;

use crate::ground::Ground;
use format::contents::BspLeafContents;
use format::refusal::{Answer, Refusal};
use math::Vector3;
use nodes::lines::point_of;
use nodes::read::{Words, end_contents, plane_at, read_words};
use nodes::segment::segment_any;
use nodes::table::Tables;
use nodes::whole::Sections;

// The word of a node's child on a point's side of its plane, by the point's distance, from any table, record by record. (The file, its
// tables and the node's number stand apart as in `nodes`.)
#[tactic(auto, using(crate::proofs::Seen::one_side))]
fn look_any(s: &[u8], t: Tables, index: usize, point: Vector3) -> Answer<u16>
    ensures { Walks.onward_answer t.table result ≡ Walks.made_from (Walks.child_by_distance point) s.now t index }
{
    let w = read_words(s, t, index)?;
    let plane = plane_at(s, t, w.plane as usize)?;
    Ok(w.on(plane.point_dist(point) >= 0.0))
}

impl<'a> Ground<'a> {
    // A node's words, and how far two points are from its plane, with so many calls left. 30: the node is outside its table; 32: no call is left.
    // (A function for the two tests, here, in `look_at` and in each descent, would be a line and a `?`, with a contract as long as the tests.)
    #[tactic(auto, unfolding(crate::specs::Private::node_for))]
    pub fn node_at(
        &self,
        index: usize,
        left: u32,
        p: Vector3,
        q: Vector3,
    ) -> Answer<(Words, f32, f32)>
        ensures { Walks.segment_answer self.now.t.table result ≡ Private.node_for (Walks.node_and_dists p q) self.now.s.now self.now.t index left }
    {
        let t = self.t;
        if (t.nodes.count as usize) <= index {
            return Err(Refusal::IndexOutsideTable);
        }
        if left == 0 {
            return Err(Refusal::TooDeep);
        }
        segment_any(self.s, t, index, p, q)
    }

    // The word that `look_any` gives, from whole tables or not, with so many calls left, by a point's coordinates. Refused as `node_at`.
    #[tactic(auto, using(crate::proofs::Seen::same_point), unfolding(crate::specs::Private::node_for))]
    fn look_at(&self, index: usize, left: u32, point: &[f32; 3]) -> Answer<u16>
        ensures { Walks.onward_answer self.now.t.table result ≡ Private.node_for (Walks.child_by_distance (Fast.point_of point.now)) self.now.s.now self.now.t index left }
    {
        let t = self.t;
        if (t.nodes.count as usize) <= index {
            return Err(Refusal::IndexOutsideTable);
        }
        if left == 0 {
            return Err(Refusal::TooDeep);
        }
        if self.whole {
            let table = t.table;
            let sections = Sections {
                nodes: self.nodes,
                planes: self.planes,
                render: table.is_render(),
            };
            return sections.look_in(index, point);
        }
        look_any(self.s, t, index, point_of(point))
    }

    // The contents at a point from a node on, at most 512 nodes deep. The loop follows the tree: its last turn, with no call left, is refused by
    // `look_at` after the test of the index, so a range would need an exit that is never taken.
    #[tactic(auto, using(crate::proofs::Looks::look_fails, crate::proofs::Looks::look_node, crate::proofs::Looks::look_has, format::proofs::Answers::handed_answer))]
    pub fn contents_from(&self, top: usize, point: Vector3) -> Answer<BspLeafContents>
        ensures { answer_of result ≡ Line.contents_from (Fast.table self.now.s.now self.now.t) 512 top point }
    {
        let coordinates = [point.x, point.y, point.z];
        let mut node = top;
        let mut left: u32 = 512;
        loop {
            let word = self.look_at(node, left, &coordinates)?;
            left -= 1;
            if 32768 <= word {
                return end_contents(self.s, self.t, word);
            }
            node = word as usize;
        }
    }

    // The contents at a point from a node's child on, which is the top of this descent.
    #[tactic(auto, using(crate::proofs::Looks::beside_end))]
    pub fn contents_beside(&self, w: Words, front: bool, point: Vector3) -> Answer<BspLeafContents>
        ensures { answer_of result ≡ Private.contents_beside self.now.s.now self.now.t w front point }
    {
        let word = w.on(front);
        if word < 32768 {
            return self.contents_from(word as usize, point);
        }
        end_contents(self.s, self.t, word)
    }
}
