// The trace of a segment where the file has all nodes, planes and leaves, by the bytes of their sections: what `recursive_trace` of
// `tracing` does record by record.
ghost use Rattle.std.specs.Prelude.{◌≡◌, ◌+◌};
ghost use Rattle.walk.specs.Walk.{held};
ghost use Rattle.nodes.specs.Fast as Fast;
ghost use Rattle.nodes.specs.Owned.{end_among};
ghost use Rattle.hull.specs.Traces as Traces;

use crate::tracing::{Descent, Went, ended, ends_with, join_parts, met_on};
use format::refusal::{Answer, Refusal};
use math::Vector3;
use nodes::crossing::{end_in, sides_in};
use nodes::lines::point_of;
use nodes::read::Words;
use nodes::whole::Sections;

// The bytes that a trace goes by: those of the nodes and the planes, and those of the leaves.
#[derive(Clone, Copy)]
pub(crate) struct Whole<'a> {
    pub sections: Sections<'a>,
    pub leaves: &'a [u8],
}

// The nodes entered, with so many more.
#[inline(always)]
fn entered(visits: u64, more: u32) -> u64
    ensures { result ≡ held (visits + more) }
{
    visits.saturating_add(more as u64)
}

impl<'a> Whole<'a> {
    // The way down comes to the end of a word.
    fn leaf_of(&self, word: u16, visits: u64) -> Answer<Descent<Words>>
        ensures { Traces.EndsDown visits (end_among self.now.sections.render self.now.leaves.now word) result }
    {
        let contents = end_in(self.leaves, self.sections.render, word)?;
        Ok(Descent::Leaf(contents, visits))
    }

    // Down from a node as long as the segment lies on one side of each plane. No range fits: the node is tested before the calls left, after the
    // last one too. (`descend` of `tracing` goes down the same way. One function for both would be told how a node and an end are read, and its
    // contract would be of any two such readers: this one is of every file and table whose own bytes these are, that one of one table. The sides of
    // the two ends are branches: two flags compared are nine instructions.)
    #[inline(always)]
    fn go_by(
        &self,
        node0: usize,
        start: &[f32; 3],
        end: &[f32; 3],
        left0: u32,
        visits: u64,
    ) -> Answer<Descent<Words>>
        ensures { Traces.GoesDown self.now.sections.render self.now.sections.nodes.now self.now.sections.planes.now self.now.leaves.now left0 node0 (Fast.point_of start.now) (Fast.point_of end.now) visits result }
    {
        let sections = self.sections;
        let count = sections.node_count();
        let mut node = node0;
        let mut left = left0;
        loop {
            if count <= node {
                return Err(Refusal::IndexOutsideTable);
            }
            if left == 0 {
                return Err(Refusal::TooDeep);
            }
            let (w, a, b) = sections.ends_in(node, start, end)?;
            left -= 1;
            let front = a >= 0.0;
            if front {
                if !(b >= 0.0) {
                    return Ok(Descent::Crossing(w, a, b, left, entered(visits, left0 - left)));
                }
            } else if b >= 0.0 {
                return Ok(Descent::Crossing(w, a, b, left, entered(visits, left0 - left)));
            }
            let word = w.on(front);
            if 32768 <= word {
                return self.leaf_of(word, entered(visits, left0 - left));
            }
            node = word as usize;
        }
    }

    // The same, by a loop for each kind of nodes, in which the kind is no test.
    #[inline(always)]
    fn go_down(
        &self,
        node: usize,
        start: &[f32; 3],
        end: &[f32; 3],
        left: u32,
        visits: u64,
    ) -> Answer<Descent<Words>>
        ensures { Traces.GoesDown self.now.sections.render self.now.sections.nodes.now self.now.sections.planes.now self.now.leaves.now left node (Fast.point_of start.now) (Fast.point_of end.now) visits result }
    {
        let leaves = self.leaves;
        if self.sections.render {
            let sections = Sections {
                render: true,
                ..self.sections
            };
            return Whole { sections, leaves }.go_by(node, start, end, left, visits);
        }
        let sections = Sections {
            render: false,
            ..self.sections
        };
        Whole { sections, leaves }.go_by(node, start, end, left, visits)
    }

    // A part that leaves the leaf of a word through the plane of a number.
    fn left_at(
        &self,
        word: u16,
        end: &[f32; 3],
        ratio: f32,
        number: u32,
        front: bool,
        visits: u64,
    ) -> Answer<Went>
        ensures { Traces.EndsNear (Fast.point_of end.now) ratio number front visits (end_among self.now.sections.render self.now.leaves.now word) result }
    {
        let contents = end_in(self.leaves, self.sections.render, word)?;
        Ok(met_on(point_of(end), ratio, number, front, contents, visits))
    }

    // A part that all lies in the leaf of a word.
    fn ended_at(&self, word: u16, end: &[f32; 3], visits: u64) -> Answer<Went>
        ensures { Traces.EndsFar (Fast.point_of end.now) visits (end_among self.now.sections.render self.now.leaves.now word) result }
    {
        let contents = end_in(self.leaves, self.sections.render, word)?;
        Ok(ended(point_of(end), contents, visits))
    }

    // The trace below a node from p to q, with the calls left and the nodes entered before, and how many nodes were entered in all. The points
    // are lent as lists: records would be copied at each call, and a copy waits for what was just written (docs/DECISIONS.md 105). For that it
    // stands beside `recursive_trace` of `tracing`, which asks no bytes to be there; what they share is argued once, over any table.
    pub(crate) fn trace_whole(
        &self,
        node: usize,
        p: &[f32; 3],
        q: &[f32; 3],
        left: u32,
        visits: u64,
    ) -> Answer<Went>
        ensures { Traces.GoesOn self.now.sections.render self.now.sections.nodes.now self.now.sections.planes.now self.now.leaves.now left node (Fast.point_of p.now) (Fast.point_of q.now) visits result }
    {
        let from = point_of(p);
        let to = point_of(q);
        match self.go_down(node, p, q, left, visits)? {
            Descent::Leaf(c, n) => Ok(ended(to, c, n)),
            Descent::Crossing(w, a, b, below, n) => {
                let (here, there) = sides_in(self.sections.planes, w.plane, from, to)?;
                let ratio = a / (a - b);
                let mid = from.add(to.sub(from).scale(ratio));
                let m = [mid.x, mid.y, mid.z];
                let i = w.on(here);
                let near = if i < 32768 {
                    self.trace_whole(i as usize, p, &m, below, n)?
                } else {
                    self.left_at(i, &m, ratio, w.plane, here, n)?
                };
                if ends_with(near, mid) {
                    return Ok(near);
                }
                let j = w.on(there);
                let v = near.visits;
                let far = if j < 32768 {
                    self.trace_whole(j as usize, &m, q, below, v)?
                } else {
                    self.ended_at(j, q, v)?
                };
                Ok(join_parts(near, far))
            }
        }
    }
}
