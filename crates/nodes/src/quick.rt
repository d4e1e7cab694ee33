// The walk of a point where the file has all nodes and planes, for the calls whose time counts: numbers alone go in and out, so that they
// stay in registers. Where it says nothing the walk goes record by record (`walking`).
ghost use Rattle.std.specs.Prelude.{◌≡◌, ◌+◌, ◌*◌, ◌/◌, ◌%◌, ◌<◌, ◌≤◌, length, from_bits, if◌then◌else◌, nat_lt, not, true, false, IfSome, Ok};
ghost use Rattle.std.specs.Float.{binary32};
ghost use Rattle.format.specs.Code.{contents_of};
ghost use Rattle.math.specs.Vector as Vec;
ghost use Rattle.math.specs.Plane as Pl;
ghost use Rattle.nodes.specs.Fast as Fast;
ghost use Rattle.nodes.specs.Tables as Spec;
ghost use Rattle.nodes.specs.Walks as Walks;
ghost use Rattle.nodes.specs.Quick as Quick;

use crate::bytes::{f32_at, plane_bytes_at, u32_at};
use crate::here::{is_either_invalid, normal_of};
use crate::read::{Words, is_front};
use crate::table::{HullTable, Tables, part_with};
use crate::whole::{Sections, are_whole, node_bytes, plane_bytes};
use math::{Hyperplane, Vector3};

// Whether a point is in front of a slanted plane, or of one whose type is none. (A call: in line it takes the registers of the walk. And numbers go
// in: from a list two coordinates are loaded at once, which waits for the two stores that made them.)
#[inline(never)]
pub(crate) fn is_ahead(bytes: &[u8; 20], x: f32, y: f32, z: f32) -> bool
    ensures { Pl.side_if result ≡ Pl.point_side (Pl.new_plane (Fast.normal bytes.now 0) (Fast.f32 bytes.now 12)) (Vec.vector x y z) }
{
    let plane = Hyperplane::new(normal_of(bytes), f32_at(bytes, 12));
    is_front(plane.point_side(Vector3 { x, y, z }))
}

// The float of four bytes that are no NaN's pattern: nothing is tested.
fn number_of(bits: u32) -> f32
    requires { bits % 2147483648 ≤ 2139095040 }
    ensures { result ≡ from_bits binary32 bits }
{
    f32::from_bits(bits)
}

// The child's word on the point's side of a plane along an axis, at a distance that is a number. The side is a branch: where the points move little
// from call to call, as a game's do, a processor predicts it. The coordinate comes from a list and not by a branch for each axis: fewer branches a
// node, of which fewer are foreseen wrongly.
#[inline(always)]
fn word_along(bytes: &[u8; 20], words: Words, point: &[f32; 3]) -> u16
    requires { Fast.u32 bytes.now 16 < 3 × Fast.u32 bytes.now 12 % 2147483648 ≤ 2139095040 }
    ensures { result ≡ Walks.word_at words (Pl.point_side (Fast.plane_here bytes.now 0) (Fast.point_of point.now)) }
{
    let kind = u32_at(bytes, 16);
    let dist = number_of(u32_at(bytes, 12));
    words.on(point[kind as usize] >= dist)
}

// The child's word on the point's side of any plane. (The readers of a plane here, in `here`, `lanes`, `lines`, `crossing` and `numbered` differ in
// how they come by a coordinate, which is where their time goes: one reader for all would take that as a parameter, and be no plainer.)
#[inline(always)]
pub(crate) fn word_ahead(bytes: &[u8; 20], words: Words, point: &[f32; 3]) -> u16
    ensures { result ≡ Walks.word_at words (Pl.point_side (Fast.plane_here bytes.now 0) (Fast.point_of point.now)) }
{
    let kind = u32_at(bytes, 16);
    if kind < 3 {
        let dist = f32_at(bytes, 12);
        return words.on(point[kind as usize] >= dist);
    }
    words.on(is_ahead(bytes, point[0], point[1], point[2]))
}

// The words of a clip node whose plane is one of so many, as `clip_words` reads them; nothing where it has no such words. (Answered so, that the
// plane's number has no sign and that it is a plane's are one test.)
#[inline(always)]
fn clip_at_once(s: &[u8], at: usize, planes: usize) -> Option<Words>
    requires { at + 8 ≤ length s.now }
    ensures { IfSome result (λ w. Fast.ReadsNode false s.now at (Ok w) × w.plane < planes) }
{
    let plane = u32_at(s, at);
    let both = u32_at(s, at + 4);
    if is_either_invalid(both) {
        return None;
    }
    if planes <= (plane as usize) {
        return None;
    }
    if 2147483648 <= plane {
        return None;
    }
    Some(Words { plane, both })
}

// Whether a plane lies along an axis, at a distance that is no NaN's pattern.
#[inline(always)]
fn is_plain(bytes: &[u8; 20]) -> bool
    ensures { result ≡ true → Fast.u32 bytes.now 16 < 3 × Fast.u32 bytes.now 12 % 2147483648 ≤ 2139095040 }
{
    if 2 < u32_at(bytes, 16) {
        return false;
    }
    let bits = u32_at(bytes, 12);
    bits.wrapping_add(bits) <= 4278190080
}

// Where a walk of so many visits stops that does not go on to a node: at the end of a word, or 0 where it is refused. (One number, as of
// `walk_quick`.)
fn stopped(word: u16, visits: u32) -> u64
    ensures said { result ≡ (if nat_lt word 32768 then 0 else word * 4294967296 + visits) }
    ensures bounded { result < 281474976710656 }
{
    if word < 32768 {
        return 0;
    }
    (word as u64) * 4294967296 + (visits as u64)
}

impl<'a> Sections<'a> {
    // The walk on from a node, where so many were entered before, by whatever planes there are; one number as of `walk_quick`. As a `for` over the
    // visits it takes three instructions more a node, and some 4% more time.
    #[inline(always)]
    fn go_on(&self, from: usize, before: u32, point: &[f32; 3]) -> u64
        requires { (from < length self.now.nodes.now / Fast.node_size self.now.render) × (before ≤ length self.now.nodes.now / Fast.node_size self.now.render) × (length self.now.nodes.now / Fast.node_size self.now.render < 32768) }
        ensures said { Quick.RestIn self.now.nodes.now self.now.planes.now self.now.render from before (Fast.point_of point.now) result }
        ensures bounded { result < 281474976710656 }
    {
        let count = self.node_count();
        let mut node = from;
        let mut visits = before;
        while (visits as usize) < count {
            let Ok((words, plane)) = self.found_at(node) else {
                return 0;
            };
            let word = word_ahead(plane, words, point);
            visits += 1;
            if count <= (word as usize) {
                return stopped(word, visits);
            }
            node = word as usize;
        }
        0
    }

    // The words of a clip node and the bytes of its plane, which lies along an axis at a number; nothing where the tests made here do not tell.
    #[inline(always)]
    fn clip_found(&self, index: usize) -> Option<(Words, &'a [u8; 20])>
        requires { index * 8 + 8 ≤ length self.now.nodes.now }
        ensures found { IfSome result (λ x. Walks.MadeIn (λ y. y) false self.now.nodes.now self.now.planes.now (index * 8) (Walks.found_answer (Spec.file_table false) (Ok x))) }
        ensures plain { IfSome result (λ x. Fast.u32 x.1.now 16 < 3 × Fast.u32 x.1.now 12 % 2147483648 ≤ 2139095040) }
    {
        let words = clip_at_once(self.nodes, index * 8, self.planes.len() / 20)?;
        let bytes = plane_bytes_at(self.planes, (words.plane as usize) * 20);
        if !is_plain(bytes) {
            return None;
        }
        Some((words, bytes))
    }

    // The walk down clip nodes. From the first node on that few tests do not tell, or whose plane is slanted or lies at a NaN, `walk_rest` goes on:
    // nothing is put aside for a call in this loop, and nothing is refused in it.
    #[inline(always)]
    fn walk_clips(&self, root: usize, point: &[f32; 3]) -> u64
        requires { length self.now.nodes.now / 8 < 32768 }
        ensures said { Quick.QuickIn self.now.nodes.now self.now.planes.now false root (Fast.point_of point.now) result }
        ensures bounded { result < 281474976710656 }
    {
        let count = self.nodes.len() / 8;
        if count <= root {
            return 0;
        }
        let mut node = root;
        let mut visits: u32 = 0;
        while (visits as usize) < count {
            let Some((words, plane)) = self.clip_found(node) else {
                let [x, y, z] = *point;
                return walk_rest(self.nodes, self.planes, false, node, visits, x, y, z);
            };
            let word = word_along(plane, words, point);
            visits += 1;
            if count <= (word as usize) {
                return stopped(word, visits);
            }
            node = word as usize;
        }
        0
    }

    // The walk by the bytes of the two sections, one number as of `walk_quick`.
    #[inline(always)]
    fn walk_whole(&self, root: usize, point: &[f32; 3]) -> u64
        requires { length self.now.nodes.now / Fast.node_size self.now.render < 32768 }
        ensures said { Quick.QuickIn self.now.nodes.now self.now.planes.now self.now.render root (Fast.point_of point.now) result }
        ensures bounded { result < 281474976710656 }
    {
        if self.node_count() <= root {
            return 0;
        }
        self.go_on(root, 0, point)
    }

    // The same, for one who has the bytes already; nothing where there are more nodes than words for them. (A call.)
    #[inline(never)]
    pub fn walk_on(&self, root: usize, x: f32, y: f32, z: f32) -> u64
        ensures said { Quick.WalkedIn self.now.nodes.now self.now.planes.now self.now.render root (Vec.vector x y z) result }
        ensures bounded { result < 281474976710656 }
    {
        if 32768 <= self.node_count() {
            return 0;
        }
        self.walk_whole(root, &[x, y, z])
    }
}

// What is left of a walk that stands at a node, where so many were entered before. (A call, by numbers; and a loop for each kind of nodes: in one for
// both the kind is a branch more at each node.)
#[inline(never)]
fn walk_rest(
    nodes: &[u8],
    planes: &[u8],
    render: bool,
    node: usize,
    visits: u32,
    x: f32,
    y: f32,
    z: f32,
) -> u64
    requires { (node < length nodes.now / Fast.node_size render) × (visits ≤ length nodes.now / Fast.node_size render) × (length nodes.now / Fast.node_size render < 32768) }
    ensures said { Quick.RestIn nodes.now planes.now render node visits (Vec.vector x y z) result }
    ensures bounded { result < 281474976710656 }
{
    let point = [x, y, z];
    if render {
        let sections = Sections {
            nodes,
            planes,
            render: true,
        };
        return sections.go_on(node, visits, &point);
    }
    let sections = Sections {
        nodes,
        planes,
        render: false,
    };
    sections.go_on(node, visits, &point)
}

fn tables_by(render: bool, at: u32, count: u32, planes_at: u32, planes_count: u32) -> Tables
    ensures { result ≡ Quick.tables_by render at count planes_at planes_count }
{
    let none = Vector3::new(0.0, 0.0, 0.0);
    Tables {
        table: HullTable::of_nodes(render),
        nodes: part_with(at, count, 32767),
        planes: part_with(planes_at, planes_count, 8192),
        leaves: part_with(0, 0, 32767),
        mins: none,
        maxs: none,
    }
}

// What `walk_quick` says, in line.
#[inline(always)]
fn walk_here(
    s: &[u8],
    at: u32,
    count: u32,
    planes_at: u32,
    planes_count: u32,
    render: bool,
    root: usize,
    x: f32,
    y: f32,
    z: f32,
) -> u64
    ensures said { Quick.quick_answer (Spec.file_table render) result ≡ Quick.quick_walk s.now (Quick.tables_by render at count planes_at planes_count) root (Vec.vector x y z) }
    ensures bounded { result < 281474976710656 }
{
    let t = tables_by(render, at, count, planes_at, planes_count);
    let whole = are_whole(t, s.len());
    if !whole {
        return 0;
    }
    let nodes = node_bytes(s, t, whole);
    let planes = plane_bytes(s, t, whole);
    let point = [x, y, z];
    // a loop for each kind of nodes, as in `walk_rest`; clip nodes have tests of their own
    if render {
        let sections = Sections {
            nodes,
            planes,
            render: true,
        };
        return sections.walk_whole(root, &point);
    }
    let sections = Sections {
        nodes,
        planes,
        render: false,
    };
    sections.walk_clips(root, &point)
}

// The same, as a call.
#[inline(never)]
fn walk_called(
    s: &[u8],
    at: u32,
    count: u32,
    planes_at: u32,
    planes_count: u32,
    render: bool,
    root: usize,
    x: f32,
    y: f32,
    z: f32,
) -> u64
    ensures said { Quick.quick_answer (Spec.file_table render) result ≡ Quick.quick_walk s.now (Quick.tables_by render at count planes_at planes_count) root (Vec.vector x y z) }
    ensures bounded { result < 281474976710656 }
{
    walk_here(s, at, count, planes_at, planes_count, render, root, x, y, z)
}

// The walk of the point (x, y, z) down the render nodes or the clip nodes of a file, which lie from `at` on and are so many, and so the
// planes: the end's word times 2^32 and the visits, or 0 where the file does not have all of them or the walk is refused. (The places, the counts
// and the coordinates travel as numbers: lent as structs they are written to memory and read again before the walk begins. And one number is
// answered, not an Option of two: an end's word is 32768 or more, so 0 is no answer. Down the render
// nodes in line: its callers are calls of their own that take little and know the kind. Down the clip nodes a call: its loop then has all registers.)
#[inline(always)]
pub fn walk_quick(
    s: &[u8],
    at: u32,
    count: u32,
    planes_at: u32,
    planes_count: u32,
    render: bool,
    root: usize,
    x: f32,
    y: f32,
    z: f32,
) -> u64
    ensures said { Quick.quick_answer (Spec.file_table render) result ≡ Quick.quick_walk s.now (Quick.tables_by render at count planes_at planes_count) root (Vec.vector x y z) }
    ensures bounded { result < 281474976710656 }
{
    if render {
        return walk_here(s, at, count, planes_at, planes_count, true, root, x, y, z);
    }
    walk_called(s, at, count, planes_at, planes_count, false, root, x, y, z)
}

// The contents codes, as bits: 1 to 6 and 9 to 14.
const CODES: u32 = 32382;

// Whether a number is a contents code.
#[inline(always)]
fn is_code(code: u32) -> bool
    ensures { result ≡ not (Fast.is_invalid (contents_of code)) }
{
    if 15 <= code {
        return false;
    }
    (CODES >> code) % 2 == 1
}

// The code of the leaf at a place, 0 where it is refused: no code is 0. (One number, as of the walk; that of the file, negated: nothing is looked
// up.)
#[inline(always)]
pub(crate) fn leaf_code(s: &[u8], at: usize) -> u32
    requires { at + 28 ≤ length s.now }
    ensures { result ≡ Quick.code_or (Fast.leaf_contents_here s.now at) }
{
    let code = u32_at(s, at).wrapping_neg();
    if !is_code(code) {
        return 0;
    }
    let offset = u32_at(s, at + 4);
    if 2147483648 <= offset && offset < 4294967295 {
        return 0;
    }
    code
}

// The code that stands in a clip node, 0 where the word is none: no code is 0. (The number itself.)
#[inline(always)]
pub(crate) fn word_code(word: u16) -> u32
    ensures { result ≡ Quick.code_or (Quick.word_contents word) }
{
    let code = 65536 - (word as u32);
    if is_code(code) { code } else { 0 }
}

// The code of the contents of the end that a word stands for, with leaves in so many bytes from `at` on; 0 where it is refused. (No code is 0, so
// one number is answered, as of the walk. The leaf's end is compared with the bytes: to count the leaves is a division. 917504 bytes are one leaf
// more than the limit.)
#[inline(always)]
pub fn end_code_sized(s: &[u8], at: u32, size: u32, render: bool, word: u16) -> u32
    ensures { result ≡ Quick.end_code s.now render at (size / 28) word }
{
    if !render {
        return word_code(word);
    }
    if 917504 <= size {
        return 0;
    }
    let past = ((65535 - word) as usize) * 28 + 28;
    if (size as usize) < past {
        return 0;
    }
    let end = (at as usize) + past;
    if s.len() < end {
        return 0;
    }
    leaf_code(s, end - 28)
}

// The same with so many leaves. (More than the limit are refused first, so that their bytes are a number of 32 bits.)
pub fn end_code(s: &[u8], at: u32, count: u32, render: bool, word: u16) -> u32
    ensures { result ≡ Quick.end_code s.now render at count word }
{
    if !render {
        return word_code(word);
    }
    if 32767 < count {
        return 0;
    }
    end_code_sized(s, at, count * 28, render, word)
}
