// Words in lists that a caller lends: a map record taken from 31 words and put into them, the words of floats, signed numbers and planes,
// and an answer written to the front of a list.
#![tactic(auto)]

ghost use Rattle.std.specs.Prelude.{◌≡◌, ◌≤◌, ◌+◌, length, get_or, leb, cond, ℕ};
ghost use Rattle.std.specs.Float.{nan};
ghost use Rattle.format.specs.Answer.{mapped};
ghost use Rattle.format.specs.Answers.{answer_of};
ghost use Rattle.words.specs.Words as Words;

use format::refusal::{Answer, Refusal};
use format::section::{BspData, BspFileSection};
use math::{Alignment, Hyperplane};

// The numbers of the refusals that a call for C gives by itself, as `Refusal::number` has them: as constants, since a call gives them before
// anything is read.
pub const LIST_TOO_SHORT: u32 = Refusal::ListTooShort as u32;

pub const NO_SUCH_RECORD: u32 = Refusal::NoSuchRecord as u32;

// How many words a map record has.
pub const MAP_WORDS: usize = 31;

// Writes the items to the front of the list, if they fit in it, and says whether they do. What lies past them is kept.
fn put_front<T: Copy>(items: &[T], out: &mut [T]) -> bool
    ensures fits { result ≡ leb (length items.now) (length out.old) }
    ensures list { out.new ≡ cond result (Words.put_items items.now out.old) out.old }
{
    if out.len() < items.len() {
        return false;
    }
    out[..items.len()].copy_from_slice(items);
    true
}

// Answers 0 and writes the words to the front of the list, or 22 where it is too short.
pub fn give(words: &[u64], out: &mut [u64]) -> u32
    ensures { Words.written result out.new ≡ Words.give words.now out.old }
{
    if put_front(words, out) {
        0
    } else {
        LIST_TOO_SHORT
    }
}

// The same for words of 32 bits. (What both do is `put_front`, for items of any type. `Written`, by which both are stated, has a list of numbers,
// which items of any type are not.)
pub fn give_u32(words: &[u32], out: &mut [u32]) -> u32
    ensures { Words.written result out.new ≡ Words.give words.now out.old }
{
    if put_front(words, out) {
        0
    } else {
        LIST_TOO_SHORT
    }
}

// Answers 0 and writes the words that were answered to the front of the list, or 22 where it is too short; or answers the number of the
// refusal, and the list stays as it was.
#[inline(always)]
pub fn give_words<const N: usize>(answer: Answer<[u64; N]>, out: &mut [u64]) -> u32
    ensures { Words.written result out.new ≡ Words.told (answer_of answer.entry) out.old }
{
    match answer {
        Ok(words) => give(&words, out),
        Err(refusal) => refusal.number(),
    }
}

// A number that stands in a word as it is. (It is `Into<u64>` but for `usize`, which has none.)
pub trait Number: Copy {
    ghost worth: { Self → ℕ };

    fn word(self) -> u64
        ensures { result ≡ worth self };
}

impl Number for u32 {
    ghost worth = { λ n. n };

    fn word(self) -> u64 {
        self as u64
    }
}

impl Number for usize {
    ghost worth = { λ n. n };

    fn word(self) -> u64 {
        self as u64
    }
}

impl Number for u64 {
    ghost worth = { λ n. n };

    fn word(self) -> u64 {
        self
    }
}

// Answers 0 and writes the number that was answered to the front of the list, or 22 where it is too short; or answers the number of the
// refusal, and the list stays as it was.
pub fn give_number<N: Number>(answer: Answer<N>, out: &mut [u64]) -> u32
    ensures { Words.written result out.new ≡ Words.told (mapped (λ n. Words.number_words (N.worth n)) (answer_of answer)) out.old }
{
    match answer {
        Ok(_) if out.is_empty() => LIST_TOO_SHORT,
        Ok(n) => {
            out[0] = n.word();
            0
        }
        Err(refusal) => refusal.number(),
    }
}

// A float's word: its 32 bits, and 0x7fc00000 for every NaN.
pub fn float_word(x: f32) -> u64
    ensures { result ≡ Words.float_word x }
{
    float::num::to_bits(x) as u64
}

// A signed number's word: two's complement in 64 bits.
pub fn signed_word(v: i16) -> u64
    ensures { result ≡ Words.signed_word v }
{
    i64::from(v).cast_unsigned()
}

// 0 or 1.
pub fn flag_word(flag: bool) -> u64
    ensures { result ≡ Words.flag_word flag }
{
    u64::from(flag)
}

// The number of a plane's kind: that of its axis, or 3 for a normal. (By a match: a variant with a value has no discriminant.)
pub fn kind_number(alignment: Alignment) -> u32
    ensures { result ≡ Words.kind_of alignment }
{
    match alignment {
        Alignment::Axis(axis) => axis as u32,
        Alignment::Normal(_) => 3,
    }
}

// The words of a plane.
pub fn plane_words(plane: Hyperplane) -> [u64; 5]
    ensures { result ≡ Words.plane_words plane }
{
    let alignment = plane.alignment;
    let normal = plane.normal();
    [
        u64::from(kind_number(alignment)),
        float_word(normal.x),
        float_word(normal.y),
        float_word(normal.z),
        float_word(plane.dist),
    ]
}

// The item at a place, and another past the list's end.
fn item_or<T: Copy>(items: &[T], at: usize, other: T) -> T
    ensures { result ≡ get_or items.now at other }
{
    items.get(at).copied().unwrap_or(other)
}

// The word at a place, and 0 past the list's end.
pub fn word_at(words: &[u32], at: usize) -> u32
    ensures { result ≡ get_or words.now at 0 }
{
    item_or(words, at, 0)
}

// The same for words of 64 bits.
pub fn word_at_u64(words: &[u64], at: usize) -> u64
    ensures { result ≡ get_or words.now at 0 }
{
    item_or(words, at, 0)
}

// The float at a place, and a NaN past the list's end.
pub fn float_at(floats: &[f32], at: usize) -> f32
    ensures { result ≡ get_or floats.now at nan }
{
    item_or(floats, at, f32::NAN)
}

// The section of two words from a place on.
#[inline(always)]
pub fn section_in(words: &[u32], at: u8) -> BspFileSection
    ensures { result ≡ Words.section_in words.now at }
{
    let at = usize::from(at);
    BspFileSection {
        offset: word_at(words, at),
        size: word_at(words, at + 1),
    }
}

// The map record of 31 words: offset and size of each section in file order, then the texture count.
// Words past the list's end count as 0.
pub fn map_of(words: &[u32]) -> BspData
    ensures { result ≡ Words.map_of words.now }
{
    BspData {
        entities: section_in(words, 0),
        planes: section_in(words, 2),
        textures: section_in(words, 4),
        vertices: section_in(words, 6),
        visibility: section_in(words, 8),
        render_nodes: section_in(words, 10),
        texinfo: section_in(words, 12),
        faces: section_in(words, 14),
        lightmaps: section_in(words, 16),
        collision_nodes: section_in(words, 18),
        leaves: section_in(words, 20),
        facelist: section_in(words, 22),
        edges: section_in(words, 24),
        edgelist: section_in(words, 26),
        models: section_in(words, 28),
        texture_count: word_at(words, 30),
    }
}

// The 31 words of a map record.
pub fn map_words(map: BspData) -> [u32; MAP_WORDS]
    ensures { result ≡ Words.map_words map }
{
    [
        map.entities.offset,
        map.entities.size,
        map.planes.offset,
        map.planes.size,
        map.textures.offset,
        map.textures.size,
        map.vertices.offset,
        map.vertices.size,
        map.visibility.offset,
        map.visibility.size,
        map.render_nodes.offset,
        map.render_nodes.size,
        map.texinfo.offset,
        map.texinfo.size,
        map.faces.offset,
        map.faces.size,
        map.lightmaps.offset,
        map.lightmaps.size,
        map.collision_nodes.offset,
        map.collision_nodes.size,
        map.leaves.offset,
        map.leaves.size,
        map.facelist.offset,
        map.facelist.size,
        map.edges.offset,
        map.edges.size,
        map.edgelist.offset,
        map.edgelist.size,
        map.models.offset,
        map.models.size,
        map.texture_count,
    ]
}
