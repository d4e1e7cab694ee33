// Whether a file has all records of the nodes and the planes, and then their sections' own bytes, from which a record is read with one test.
ghost use Rattle.std.specs.Prelude.{◌≡◌, ◌+◌, ◌*◌, ◌/◌, ◌≤◌, length, nat_lt};
ghost use Rattle.nodes.specs.Fast as Fast;
ghost use Rattle.nodes.specs.Tables as Spec;
ghost use Rattle.nodes.specs.Walks as Walks;

use crate::bytes::plane_bytes_at;
use crate::here::{clip_words, render_words};
use crate::read::Words;
use crate::table::{Part, Tables};
use format::refusal::{Answer, Refusal};

pub(crate) fn node_size(render: bool) -> u8
    ensures { result ≡ Fast.node_size render }
{
    if render { 24 } else { 8 }
}

// Whether all records of a part are within the limit and lie in `len` bytes.
#[tactic(auto, unfolding(crate::specs::Walks::is_whole))]
pub(crate) fn is_whole(part: Part, size: u8, len: usize) -> bool
    ensures { result ≡ Walks.is_whole part size len }
{
    if part.readable < part.count {
        return false;
    }
    (part.at as usize) + (part.count as usize) * (size as usize) <= len
}

// Whether all nodes and planes are; a box has none in the file.
#[tactic(auto, unfolding(crate::specs::Walks::are_whole))]
pub fn are_whole(t: Tables, len: usize) -> bool
    ensures { result ≡ Walks.are_whole t len }
{
    let table = t.table;
    if table.is_box() {
        return false;
    }
    if is_whole(t.nodes, node_size(table.is_render()), len) {
        return is_whole(t.planes, 20, len);
    }
    false
}

// The bytes of a part where it is asked for and whole, else none.
#[tactic(auto, using(crate::proofs::Wholes::none_asked, crate::proofs::Wholes::none_whole, crate::proofs::Wholes::bytes_are, crate::proofs::Wholes::ends_inside))]
pub(crate) fn bytes_of(s: &[u8], part: Part, size: u8, whole: bool) -> &[u8]
    ensures { result.now ≡ Walks.bytes_of whole s.now part size }
{
    if !whole {
        return &s[..0];
    }
    if !is_whole(part, size, s.len()) {
        return &s[..0];
    }
    let at = part.at as usize;
    let end = at + (part.count as usize) * (size as usize);
    &s[at..end]
}

// The nodes' bytes.
pub fn node_bytes(s: &[u8], t: Tables, whole: bool) -> &[u8]
    ensures { result.now ≡ Walks.node_bytes whole s.now t }
{
    let table = t.table;
    bytes_of(s, t.nodes, node_size(table.is_render()), whole)
}

// The planes' bytes.
pub fn plane_bytes(s: &[u8], t: Tables, whole: bool) -> &[u8]
    ensures { result.now ≡ Walks.plane_bytes whole s.now t }
{
    bytes_of(s, t.planes, 20, whole)
}

// The bytes of the nodes and of the planes, and whether the nodes are render nodes. A reader that is a call by itself is lent them.
#[derive(Clone, Copy)]
pub struct Sections<'a> {
    pub nodes: &'a [u8],
    pub planes: &'a [u8],
    pub render: bool,
}

// The bytes of the nodes and of the planes: none where the file does not have all of them.
#[inline(always)]
pub(crate) fn sections_of(s: &[u8], t: Tables, whole: bool) -> Sections<'_>
    requires { whole ≡ Walks.are_whole t (length s.now) }
    ensures { Walks.Read s.now t result.nodes.now result.planes.now whole × (result.render ≡ Fast.is_render t.table) }
{
    let table = t.table;
    Sections {
        nodes: node_bytes(s, t, whole),
        planes: plane_bytes(s, t, whole),
        render: table.is_render(),
    }
}

impl<'a> Sections<'a> {
    // How many nodes the bytes have.
    #[inline(always)]
    pub fn node_count(&self) -> usize
        ensures { result ≡ length self.now.nodes.now / Fast.node_size self.now.render }
    {
        if self.render {
            return self.nodes.len() / 24;
        }
        self.nodes.len() / 8
    }

    // Whether the bytes have a node of an index.
    #[inline(always)]
    pub(crate) fn has_node(&self, index: usize) -> bool
        ensures { result ≡ nat_lt index (length self.now.nodes.now / Fast.node_size self.now.render) }
    {
        index < self.node_count()
    }

    // The words of a node.
    #[inline(always)]
    fn words_in(&self, index: usize) -> Answer<Words>
        requires { index * Fast.node_size self.now.render + Fast.node_size self.now.render ≤ length self.now.nodes.now }
        ensures { Fast.ReadsNode self.now.render self.now.nodes.now (index * Fast.node_size self.now.render) result }
    {
        if self.render {
            return render_words(self.nodes, index * 24);
        }
        clip_words(self.nodes, index * 8)
    }

    // The words of a node and the bytes of its plane. Two walks need that the node is there, and test it themselves.
    #[tactic(auto, using(crate::proofs::Making::in_unread, crate::proofs::Making::in_outside))]
    #[inline(always)]
    pub(crate) fn found_at(&self, index: usize) -> Answer<(Words, &'a [u8; 20])>
        requires { index * Fast.node_size self.now.render + Fast.node_size self.now.render ≤ length self.now.nodes.now }
        ensures { Walks.MadeIn (λ x. x) self.now.render self.now.nodes.now self.now.planes.now (index * Fast.node_size self.now.render) (Walks.found_answer (Spec.file_table self.now.render) result) }
    {
        let words = self.words_in(index)?;
        let plane = words.plane as usize;
        if self.planes.len() / 20 <= plane {
            return Err(Refusal::IndexOutsideTable);
        }
        Ok((words, plane_bytes_at(self.planes, plane * 20)))
    }

    // The same of the node of an index, whatever the bytes are. 20: there is no such node. Every other reader is made of this one. (A group of points
    // asks it: one reading for all of them.)
    #[tactic(auto, using(crate::proofs::Making::room))]
    #[inline(always)]
    pub fn found_in(&self, index: usize) -> Answer<(Words, &'a [u8; 20])>
        ensures { Walks.MadeOf (λ x. x) self.now.render self.now.nodes.now self.now.planes.now index (λ t. Walks.found_answer t result) }
    {
        if self.has_node(index) {
            return self.found_at(index);
        }
        Err(Refusal::NoSuchRecord)
    }
}
