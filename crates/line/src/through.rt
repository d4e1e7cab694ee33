// The whole-line trace where the file has all nodes and planes, in one loop: the planes whose far side waits for the near one are a list. The
// point that is looked for beyond a plane is where the far part starts, so the first end that the far part comes to is what the look finds, and
// no look is taken before it. Nothing is said where a record or a leaf is refused, no call is left or the list is full.
ghost use Rattle.std.specs.Prelude.{◌≡◌, true, ◌&&◌, ◌<◌, ◌≤◌, eqb, Float};
ghost use Rattle.math.specs.declared.vector.Vector3.{Vector3};
ghost use Rattle.nodes.specs.Fast.{contents_met, point_of, table};
ghost use Rattle.nodes.specs.Quick.{code_or, word_contents};
ghost use Rattle.line.specs.Line.{contents_from, into, stretch};
ghost use Rattle.line.specs.Private as Private;

use crate::ground::Ground;
use crate::state::{LineTrace, Stretch, crossing};
use math::Vector3;
use nodes::lines::{end_number, point_of};
use nodes::read::Words;
use nodes::whole::Sections;

// A point of the line at which a part of it ends, by its fraction and its coordinates. Where it is a plane whose far side waits, `held` is the calls
// left below it, with 1024 more for each one of the word of the child there, 67108864 more where the line comes from its front and 4294967296 more
// for each one of the plane's number. (The calls left are added as they stand: multiplied, they would be counted twice at each node. A mark is
// copied in parts of 16 and 8 bytes, as it is written: other parts wait for the writing. Eleven of them are cleared without a call:
// docs/DECISIONS.md 111.)
#[derive(Clone, Copy)]
pub struct Mark {
    pub at: f32,
    pub point: [f32; 3],
    pub held: u64,
}

// Where the line comes to: it goes through; or it is blocked at a plane; each with where it was to go and what it has met (`seen_line`).
#[derive(Clone, Copy)]
pub enum Came {
    Through(Vector3, u32),
    Blocked(Mark, Vector3, u32),
}

// Where a part's way down comes to: the word of an end; or a plane that it crosses, with the node's words, the distances of its ends and the
// calls left below it. (`Descent` of `tracing` has the contents of the leaf where this has the word of the end. One enum for both would take the
// type of an end, each definition of either would name it, and it would be no plainer.)
#[derive(Clone, Copy)]
enum Reached {
    End(u16),
    Crossing(Words, f32, f32, u32),
}

// What one turn of the line comes to: a plane that it crosses, with the node's words, whether it comes from the front, the calls left below and
// the part before it; a leaf, with what it has met then; or the line is blocked.
#[derive(Clone, Copy)]
enum Turn {
    Crossing(Words, bool, u32, Stretch),
    Into(u32),
    Blocked,
}

// Where the line starts or ends.
fn tip(at: f32, point: Vector3) -> Mark
    ensures { Private.Tip at point result }
{
    Mark {
        at,
        point: [point.x, point.y, point.z],
        held: 0,
    }
}

// The plane of a node that the line crosses where the part before it ends.
#[tactic(auto, using(crate::proofs::States::packed_plane, crate::proofs::States::packed_word, crate::proofs::States::packed_left, crate::proofs::States::packed_front, crate::proofs::States::packed_back))]
fn waits(w: Words, front: bool, left: u32, near: Stretch) -> Mark
    requires { left ≤ 512 }
    ensures { Private.Keeps w front left near result }
{
    let end = near.end;
    let from_back = Mark {
        at: near.to,
        point: [end.x, end.y, end.z],
        held: (w.plane as u64) * 4294967296 + (w.on(!front) as u64) * 1024 + (left as u64),
    };
    if front {
        return Mark {
            held: from_back.held + 67108864,
            ..from_back
        };
    }
    from_back
}

impl Mark {
    // The part from it to another one.
    fn part_to(&self, end: &Mark) -> Stretch
        ensures { result ≡ Private.part_from self.now end.now }
    {
        Stretch {
            from: self.at,
            to: end.at,
            start: point_of(&self.point),
            end: point_of(&end.point),
        }
    }

    // Whether the line comes from the front of the plane.
    pub fn is_from_front(self) -> bool
        ensures { result ≡ Private.from_front self }
    {
        67108864 <= self.held % 4294967296
    }
}

// Whether the first end beyond a plane is solid, by the code of its contents.
fn is_blocked(looked: bool, code: u32) -> bool
    ensures { result ≡ looked && eqb code 2 }
{
    looked && code == 2
}

// The code that a word of a clip node's child has, 0 where it is none: 1 to 6 and 9 to 14. (By tests, and not by `contents_of`: that is a call, and
// a call in the loop stores what the loop has in registers.)
#[tactic(auto, using(crate::proofs::Ends::no_code_high, crate::proofs::Ends::no_code_seven, crate::proofs::Ends::no_code_eight, crate::proofs::Ends::has_code))]
#[inline(always)]
fn clip_code(word: u16) -> u32
    ensures { result ≡ code_or (word_contents word) }
{
    let code = 65536 - (word as u32);
    if 14 < code {
        return 0;
    }
    if code == 7 || code == 8 {
        return 0;
    }
    code
}

// What a line has met once it has met an end too, by the code of its contents: 1 stands for Solid, 2 for Empty, 4 for any other. (One number, so
// that it stays in a register: the flags of a `LineTrace` are put together and taken apart at each end.)
#[tactic(auto, using(crate::proofs::Ends::below, crate::proofs::Ends::meets_solid, crate::proofs::Ends::meets_empty, crate::proofs::Ends::meets_other))]
#[inline(always)]
fn met(seen: u32, code: u32) -> u32
    requires { seen < 8 }
    ensures few { result < 8 }
    ensures set { Private.Meets seen code result }
{
    if code == 2 {
        return seen | 1;
    }
    if code == 1 {
        return seen | 2;
    }
    seen | 4
}

// What is set in a line to a point that has met that.
pub fn seen_line(end: Vector3, seen: u32) -> LineTrace
    ensures { result ≡ Private.seen_line end seen }
{
    LineTrace {
        all_solid: seen < 2,
        start_solid: seen % 2 == 1,
        in_open: seen / 2 % 2 == 1,
        in_water: 4 <= seen,
        ..LineTrace::unset(end)
    }
}

impl<'a> Ground<'a> {
    // Down from a child, by its word, with so many calls left, as long as the part lies on one side of each plane. A word that is no node of the
    // table is found by the reader's own test of the number, which also tells an end: so each child is tested once.
    // `descend` of `tracing` goes down by any table, record by record, tells which refusal ends it, and reads the leaf. One function for both would
    // have to be told how a node is read and what becomes of a refusal and of an end, and would be no plainer. (The far end is tested after the near
    // one: where the two sides are compared with each other, they are put into numbers first, which takes ten instructions a node.)
    // That the bytes are there is asked of this and those below: a `Sections` would say it, and costs a line 1 to 3%.
    #[inline(always)]
    fn down(&self, top: u16, calls: u32, p: &[f32; 3], q: &[f32; 3]) -> Option<Reached>
        requires { Private.Worded self.now }
        ensures { (x y : Float) → Private.Reaches self.now.s.now self.now.t top calls (stretch x y (point_of p.now) (point_of q.now)) result }
    {
        let t = self.t;
        let table = t.table;
        let sections = Sections {
            nodes: self.nodes,
            planes: self.planes,
            render: table.is_render(),
        };
        let mut word = top;
        let mut left = calls;
        loop {
            let Ok((w, a, b)) = sections.ends_in(word as usize, p, q) else {
                if word < 32768 {
                    return None;
                }
                return Some(Reached::End(word));
            };
            if left == 0 {
                return None;
            }
            left -= 1;
            word = if a >= 0.0 {
                if !(b >= 0.0) {
                    return Some(Reached::Crossing(w, a, b, left));
                }
                w.on(true)
            } else {
                if b >= 0.0 {
                    return Some(Reached::Crossing(w, a, b, left));
                }
                w.on(false)
            };
        }
    }

    // The code of the contents of an end, 0 where it is refused: no code is 0.
    #[tactic(auto, using(crate::proofs::Ends::code_clip))]
    #[inline(always)]
    fn code_at(&self, word: u16) -> u32
        ensures { result ≡ code_or (contents_met self.now.s.now self.now.t word) }
    {
        let table = self.t.table;
        if table.is_render() {
            return end_number(self.s, self.t, word);
        }
        clip_code(word)
    }

    // The code of the contents at a point from the root, 0 where nothing is said.
    #[inline(always)]
    pub fn code_from_root(&self, point: &[f32; 3]) -> u32
        requires { Private.Worded self.now × (self.now.root < 32768) }
        ensures { 0 < result → result ≡ code_or (contents_from (table self.now.s.now self.now.t) 512 self.now.root (point_of point.now)) }
    {
        let t = self.t;
        let table = t.table;
        let sections = Sections {
            nodes: self.nodes,
            planes: self.planes,
            render: table.is_render(),
        };
        let mut word = self.root as u16;
        let mut left: u32 = 512;
        loop {
            let Ok(next) = sections.look_in(word as usize, point) else {
                if word < 32768 {
                    return 0;
                }
                return self.code_at(word);
            };
            if left == 0 {
                return 0;
            }
            left -= 1;
            word = next;
        }
    }

    // An end, with what was met before; `looked`: it is what the look beyond a plane finds.
    #[inline(always)]
    fn meet_end(&self, word: u16, seen: u32, looked: bool) -> Option<Turn>
        requires { seen < 8 }
        ensures { Private.Met self.now.s.now self.now.t word seen looked result }
    {
        let code = self.code_at(word);
        if code == 0 {
            return None;
        }
        if is_blocked(looked, code) {
            return Some(Turn::Blocked);
        }
        Some(Turn::Into(met(seen, code)))
    }

    // One turn of the line that stands at a child, by its word, with so many calls left and the part from x to y, with what it has met; `looked`: the
    // first end is what the look beyond a plane finds.
    #[inline(always)]
    fn one_turn(
        &self,
        at: u16,
        left: u32,
        x: &Mark,
        y: &Mark,
        seen: u32,
        looked: bool,
    ) -> Option<Turn>
        requires { Private.Worded self.now × (seen < 8) }
        ensures { Private.Turned self.now.s.now self.now.t (Private.stands at left x.now y.now) seen looked result }
    {
        match self.down(at, left, &x.point, &y.point)? {
            Reached::End(word) => self.meet_end(word, seen, looked),
            Reached::Crossing(w, a, b, below) => {
                let near = x.part_to(y).near_part(crossing(a, b));
                Some(Turn::Crossing(w, a >= 0.0, below, near))
            }
        }
    }

    // The line from a child on. A tree of 32,767 nodes has fewer ends and planes than there are turns. (Eleven places and the first that is used, and
    // no list that grows: there is no heap, and eleven are cleared without a call. The last is the line's end, the others the planes that wait.
    // Where the line was to go is read there again: handed on it takes a register.)
    #[tactic(auto, using(crate::proofs::Follows::fewer_left, crate::proofs::Follows::few_met))]
    #[inline(always)]
    pub fn follow(&self, root: u16, start: Vector3, end: Vector3) -> Option<Came>
        requires { Private.Worded self.now }
        ensures { Private.Arrives self.now (Private.from_start root start end) result }
    {
        let mut marks = [tip(0.0, Vector3::new(0.0, 0.0, 0.0)); 11];
        let mut n: usize = 10;
        marks[10] = tip(1.0, end);
        let mut x = tip(0.0, start);
        let mut word = root;
        let mut left: u32 = 512;
        let mut seen: u32 = 0;
        let mut looked = false;
        for _ in 0..131072u32 {
            match self.one_turn(word, left, &x, &marks[n], seen, looked)? {
                Turn::Blocked => return Some(Came::Blocked(x, point_of(&marks[10].point), seen)),
                Turn::Crossing(w, front, below, near) => {
                    if n == 0 {
                        return None;
                    }
                    n -= 1;
                    marks[n] = waits(w, front, below, near);
                    word = w.on(front);
                    left = below;
                }
                Turn::Into(so_far) => {
                    seen = so_far;
                    if 10 <= n {
                        return Some(Came::Through(point_of(&marks[10].point), seen));
                    }
                    x = marks[n];
                    n += 1;
                    word = (x.held / 1024 % 65536) as u16;
                    left = (x.held % 1024) as u32;
                    looked = true;
                }
            }
        }
        None
    }
}
