// The whole-line trace through a hull.
// The file, its map record and the hull stand apart as in `hull`.
ghost use Rattle.std.specs.Prelude.{◌≡◌, ◌<◌};
ghost use Rattle.format.specs.Answer.{answer};
ghost use Rattle.format.specs.Answers.{answer_of};
ghost use Rattle.math.specs.Plane as Pl;
ghost use Rattle.math.specs.declared.plane.Hyperplane.{Hyperplane};
ghost use Rattle.nodes.specs.Fast as Fast;
ghost use Rattle.hull.specs.Hull as Hull;
ghost use Rattle.line.specs.Line as Line;
ghost use Rattle.line.specs.Private as Private;

use crate::ground::Ground;
use crate::state::{LineTrace, Stretch, crossing, plane_from};
use crate::through::{Came, Mark, seen_line};
use format::contents::BspLeafContents;
use format::refusal::Answer;
use format::section::BspData;
use hull::collision::BspCollisionHull;
use math::Vector3;
use nodes::lines::point_of;
use nodes::read::{Words, end_contents, plane_at};
use nodes::table::{Tables, tables_of};
use nodes::whole::{are_whole, node_bytes, plane_bytes};

// How a call ends: tracing may go on, or it stops. (As `ControlFlow`, with names: in an `Answer` its `?` would not do.)
#[derive(Clone, Copy)]
pub enum Going {
    On(LineTrace),
    Stopped(LineTrace),
}

// Where a part's way down comes to: the leaf that it all lies in; or a plane that it crosses, with the node's words, the distances of its
// ends and the calls left below it.
#[derive(Clone, Copy)]
enum Descent {
    Leaf(BspLeafContents),
    Crossing(Words, f32, f32, u32),
}

// A part that a plane splits at k: the words of the plane's node, whether the part comes from the front, and the calls left below the node.
#[derive(Clone, Copy)]
struct Split {
    w: Words,
    front: bool,
    left: u32,
    part: Stretch,
    k: f32,
}

// Where a part of the line goes on to beyond a plane: to a node, or tracing ends.
#[derive(Clone, Copy)]
enum Far {
    Node(usize),
    Ended(Going),
}

impl<'a> Ground<'a> {
    // Down from a node, with so many calls left, its own included, as long as the part lies on one side of each plane. The loop follows the tree, as
    // that of `contents_from`.
    #[tactic(auto, using(crate::proofs::Seen::call_left))]
    fn descend(&self, top: usize, calls: u32, part: Stretch) -> Answer<Descent>
        ensures { Private.Comes self.now.s.now self.now.t top calls part result }
    {
        let start = part.start;
        let end = part.end;
        let mut node = top;
        let mut left = calls;
        loop {
            let (w, a, b) = self.node_at(node, left, start, end)?;
            left -= 1;
            let front = a >= 0.0;
            if front != (b >= 0.0) {
                return Ok(Descent::Crossing(w, a, b, left));
            }
            let word = w.on(front);
            if 32768 <= word {
                return Ok(Descent::Leaf(end_contents(self.s, self.t, word)?));
            }
            node = word as usize;
        }
    }

    // The impact at k along a part, backed off by steps of 0.1 while it is solid from the root.
    #[tactic(auto, using(crate::proofs::Backs::back_none))]
    fn back_off(&self, part: Stretch, k0: f32, line: LineTrace) -> Answer<Going>
        ensures { Private.went_of result ≡ Line.back_off (Fast.table self.now.s.now self.now.t) 10 self.now.root part k0 line }
    {
        let mut k = k0;
        for _ in 0..10u32 {
            let c = self.contents_from(self.root, part.point_at(k))?;
            let next = k - 0.1;
            if c != BspLeafContents::Solid || !(next >= 0.0) {
                return Ok(Going::Stopped(line.impact(part, k)));
            }
            k = next;
        }
        Ok(Going::Stopped(line.impact(part, k)))
    }

    // The far side is solid where the plane splits the part: the trace ends, here if not all was solid.
    #[tactic(auto, using(crate::proofs::Lines::blocked_by))]
    fn blocked(&self, at: Split, line: LineTrace) -> Answer<Going>
        ensures { (h : Hyperplane) → Fast.plane_in self.now.s.now self.now.t at.w.plane ≡ answer h → Private.went_of result ≡ Line.blocked (Fast.table self.now.s.now self.now.t) self.now.root h (Pl.side_if at.front) at.part at.k line }
    {
        if line.all_solid {
            return Ok(Going::Stopped(line));
        }
        let w = at.w;
        let plane = plane_at(self.s, self.t, w.plane as usize)?;
        let met = line.with_plane(plane_from(plane, at.front));
        self.back_off(at.part, at.k, met)
    }

    // Beyond the plane, where the near side was traced: by the contents of the far side at the split.
    #[tactic(auto, using(crate::proofs::Lines::far_unread, crate::proofs::Lines::far_solid, crate::proofs::Lines::far_node, crate::proofs::States::alike, format::proofs::Answers::handed_on))]
    fn beyond(&self, at: Split, line: LineTrace) -> Answer<Far>
        ensures { Private.Beyond self.now at.w at.front at.part at.k line result }
    {
        let w = at.w;
        let part = at.part;
        let c = self.contents_beside(w, !at.front, part.point_at(at.k))?;
        if c == BspLeafContents::Solid {
            return Ok(Far::Ended(self.blocked(at, line)?));
        }
        let word = w.on(!at.front);
        if word < 32768 {
            return Ok(Far::Node(word as usize));
        }
        Ok(Far::Ended(Going::On(line.into_leaf(c))))
    }

    // The near side of the plane: a node is traced with the calls left, a leaf is traced into.
    #[cycle(child_line_from)]
    fn child(&self, at: Split, line: LineTrace) -> Answer<Going>
        ensures { Private.went_of result ≡ Private.child_went self.now.s.now self.now.t self.now.root at.left at.w at.front (Line.near_part at.part at.k) line }
    {
        let w = at.w;
        let part = at.part;
        let word = w.on(at.front);
        if word < 32768 {
            let near = part.near_part(at.k);
            return self.line_from(word as usize, at.left, near, line);
        }
        let c = end_contents(self.s, self.t, word)?;
        Ok(Going::On(line.into_leaf(c)))
    }

    // A node with so many calls left, its own included, for a part of the line. The far side of each plane is gone on to in the loop. No range:
    // each crossing says where it goes on.
    #[tactic(auto, using(crate::proofs::Lines::near_fails, crate::proofs::Lines::near_ends, format::proofs::Answers::handed_on))]
    #[cycle(child_line_from)]
    fn line_from(&self, top: usize, calls: u32, all: Stretch, before: LineTrace) -> Answer<Going>
        ensures { Private.went_of result ≡ Line.line_from (Fast.table self.now.s.now self.now.t) self.now.root calls top all before }
    {
        let mut node = top;
        let mut left = calls;
        let mut part = all;
        let mut line = before;
        loop {
            match self.descend(node, left, part)? {
                Descent::Leaf(c) => return Ok(Going::On(line.into_leaf(c))),
                Descent::Crossing(w, a, b, below) => {
                    let k = crossing(a, b);
                    let at = Split {
                        w,
                        front: a >= 0.0,
                        left: below,
                        part,
                        k,
                    };
                    let near = self.child(at, line)?;
                    let Going::On(so_far) = near else {
                        return Ok(near);
                    };
                    match self.beyond(at, so_far)? {
                        Far::Ended(r) => return Ok(r),
                        Far::Node(i) => {
                            node = i;
                            left = below;
                            part = part.far_part(k);
                            line = so_far;
                        }
                    }
                }
            }
        }
    }

    // What a line is that is blocked at a plane, with what is set before: it ends there, where that point is not solid from the root; where it is,
    // nothing is said.
    #[inline(always)]
    fn stop_at(&self, x: Mark, set: LineTrace) -> Option<LineTrace>
        requires { Private.Worded self.now × (self.now.root < 32768) }
        ensures { Private.Stops self.now x set result }
    {
        if set.all_solid {
            return Some(set);
        }
        let code = self.code_from_root(&x.point);
        if code == 0 || code == 2 {
            return None;
        }
        let plane = plane_at(self.s, self.t, (x.held / 4294967296) as usize).ok()?;
        let met = set.with_plane(plane_from(plane, x.is_from_front()));
        Some(met.ended(x.at, point_of(&x.point)))
    }

    // The whole line record by record.
    fn line_any(&self) -> Answer<Going>
        ensures { Private.went_of result ≡ Private.all_went self.now.s.now self.now.t self.now.root self.now.start self.now.end }
    {
        let part = Stretch {
            from: 0.0,
            to: 1.0,
            start: self.start,
            end: self.end,
        };
        self.line_from(self.root, 512, part, LineTrace::unset(self.end))
    }

    // The whole line in one loop, where that says it.
    #[tactic(auto, using(crate::proofs::Follows::came_through))]
    #[inline(always)]
    fn line_quick(&self) -> Option<LineTrace>
        requires { Private.Worded self.now × (self.now.root < 32768) }
        ensures { Private.AtOnce (Line.line_answer (Private.all_went self.now.s.now self.now.t self.now.root self.now.start self.now.end)) result }
    {
        match self.follow(self.root as u16, self.start, self.end)? {
            Came::Through(q, seen) => Some(seen_line(q, seen)),
            Came::Blocked(x, q, seen) => self.stop_at(x, seen_line(q, seen)),
        }
    }
}

// The whole line by any table, record by record: a call, in which what it goes by is put together anew, so that the way before it keeps none of it.
#[cold]
#[inline(never)]
fn line_by_records(
    s: &[u8],
    t: Tables,
    root: usize,
    start: Vector3,
    end: Vector3,
) -> Answer<LineTrace>
    ensures { answer_of result ≡ Line.line_answer (Private.all_went s.now t root start end) }
{
    let whole = are_whole(t, s.len());
    let g = Ground {
        s,
        nodes: node_bytes(s, t, whole),
        planes: plane_bytes(s, t, whole),
        root,
        t,
        start,
        end,
        whole,
    };
    match g.line_any()? {
        Going::On(line) => Ok(line),
        Going::Stopped(line) => Ok(line),
    }
}

// The whole line at once: where the file has all nodes and planes, and a word for each node, and one loop says it.
#[inline(always)]
fn line_at_once(s: &[u8], t: Tables, root: usize, start: Vector3, end: Vector3) -> Option<LineTrace>
    ensures { Private.AtOnce (Line.line_answer (Private.all_went s.now t root start end)) result }
{
    let whole = are_whole(t, s.len());
    let nodes = t.nodes;
    if !whole || 32768 <= root || 32768 < nodes.count {
        return None;
    }
    let g = Ground {
        s,
        nodes: node_bytes(s, t, whole),
        planes: plane_bytes(s, t, whole),
        root,
        t,
        start,
        end,
        whole,
    };
    g.line_quick()
}

// The whole-line trace from start to end through a hull: in one loop, or record by record where that says nothing. (For that the tables are copied:
// handed on as they are, they would be written to memory in each call. In line, so that the call for C can have one for each kind of nodes.)
#[inline(always)]
pub fn trace_line(
    s: &[u8],
    map: BspData,
    hull: BspCollisionHull,
    start: Vector3,
    end: Vector3,
) -> Answer<LineTrace>
    ensures { answer_of result ≡ Line.whole_line (Hull.hull_table s.now map hull) hull.node_id start end }
{
    let t = tables_of(map, hull.table, hull.mins, hull.maxs);
    if let Some(line) = line_at_once(s, t, hull.node_id, start, end) {
        return Ok(line);
    }
    let tables = t;
    line_by_records(s, tables, hull.node_id, start, end)
}
