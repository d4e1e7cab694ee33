// Animated textures: frame letters, and alternate groups without a primary one. A table of stems is filled with those of a part of the
// textures at a time, and all textures are held to it, so that the time grows with the textures and the parts.
ghost use Rattle.std.specs.Prelude.{◌≡◌, ◌≤◌, ◌<◌, ◌+◌, ◌*◌, length, true};
ghost use Rattle.textures.specs.Count.{any};
ghost use Rattle.sections.specs.Answers.{checked_step};
ghost use Rattle.textures.specs.Group.{sequenced};
ghost use Rattle.texture_list.specs.Kind.{passing, starts, ends, key_of, is_wrong_key};
ghost use Rattle.texture_list.specs.List.{names_of};
ghost use Rattle.texture_list.specs.declared.kind.Kind.TheVariants as Of;
ghost use Rattle.textures.specs.Sieve.{Sieved};
ghost use Rattle.textures.specs.Stems as Stems;
ghost use Rattle.textures.specs.Table as Tab;

use crate::sieve::seek_sifted;
use crate::stem_table::StemTable;
use crate::table::{Located, add, seek};
use format::refusal::{Answer, Refusal};
use texture_list::kind::{Kind, Stem, is_kind, key_of};

// A stem in the table of the nodes below `nodes`, which become one more if it is new. `None` says that there is no room. A slice of the nodes
// would not do: a new one goes behind them. The words alone, here and in the two below, so that two nodes are asked of each: with a `StemTable`
// they would be generic in its marks, which they leave alone. The table grows from call to call, so that it is one of so many nodes is asked too.
#[tactic(auto, using(crate::proofs::Steps::ins_at, crate::proofs::Steps::ins_deep, crate::proofs::Steps::ins_full, crate::proofs::Steps::ins_new))]
fn insert(t: &mut [u64], nodes: usize, stem: Stem) -> Option<usize>
    requires { Tab.Table t.old nodes × (8 ≤ length t.old) }
    ensures { Tab.Insertion true t.old nodes stem.start stem.end t.new result }
{
    match seek(t, stem) {
        Located::At(_) => Some(nodes),
        Located::Free(slot) if nodes < t.len() / 4 => {
            add(t, slot, nodes, stem);
            Some(nodes + 1)
        }
        _ => None,
    }
}

// The same for the stem of a texture, if the texture is of a kind.
#[tactic(auto, using(crate::proofs::Steps::fill_skips))]
fn fill_one(
    s: &[u8],
    base: u32,
    kind: Kind,
    index: u32,
    t: &mut [u64],
    nodes: usize,
) -> Option<usize>
    requires { Tab.Table t.old nodes × (8 ≤ length t.old) }
    ensures { Tab.Insertion (passing s.now base kind index) t.old nodes (starts s.now base index) (ends s.now base index) t.new result }
{
    let key = key_of(s, base, index);
    if is_kind(kind, key) {
        return insert(t, nodes, key.stem);
    }
    Some(nodes)
}

// The textures up to `to`, not included, whose stems a table has, and the nodes that it has, with one that has none.
#[derive(Clone, Copy)]
pub struct Filling {
    pub to: u32,
    pub nodes: usize,
}

// The table of the stems of the textures of a kind from a number on, as many as there is room for. What the table had goes.
pub fn fill(s: &[u8], base: u32, kind: Kind, from: u32, count: u32, t: &mut [u64]) -> Filling
    requires { (from < count) × (8 ≤ length t.old) }
    ensures { Stems.Filled s.now base kind from result.to t.new result.nodes × ((from < result.to) × (result.to ≤ count)) }
{
    t.fill(0);
    let mut nodes = 1;
    for i in from..count {
        let Some(next) = fill_one(s, base, kind, i, t, nodes) else {
            return Filling { to: i, nodes };
        };
        nodes = next;
    }
    Filling { to: count, nodes }
}

// Marks the node with the stem of a texture, if the texture is of a kind. That the table has a node for each mark is asked here, in `mark` and in
// `is_first`: the marks are a part, lent anew for each part of the textures, and a struct with a ghost field would be made for one call.
#[tactic(auto, using(crate::proofs::Sieves::sought_sifted, crate::proofs::Sieves::sifted_at, crate::proofs::Steps::is_of))]
#[inline(always)]
fn mark_one(s: &[u8], base: u32, kind: Kind, index: u32, t: &[u64], sieve: &[u8], marks: &mut [u8])
    requires { Tab.Table t.now (length marks.old) × (Stems.Marked s.now base kind t.now (length marks.old) marks.old index × Sieved t.now (length marks.old) sieve.now) }
    ensures { Stems.Marked s.now base kind t.now (length marks.old) marks.new (index + 1) }
{
    let key = key_of(s, base, index);
    if is_kind(kind, key) {
        if let Some(v) = seek_sifted(t, sieve, key.stem) {
            marks[v] = 1;
        }
    }
}

// Marks the nodes with the stems of the first textures of a kind, and no other. A sieve spares the searches for stems that the table has not;
// an empty one spares none.
#[inline(always)]
pub fn mark(s: &[u8], base: u32, kind: Kind, count: u32, t: &[u64], sieve: &[u8], marks: &mut [u8])
    requires { Tab.Table t.now (length marks.old) × Sieved t.now (length marks.old) sieve.now }
    ensures { Stems.Marked s.now base kind t.now (length marks.old) marks.new count }
{
    marks.fill(0);
    for i in 0..count {
        mark_one(s, base, kind, i, t, sieve, marks);
    }
}

// Whether a node is not marked.
fn has_unmarked(marks: &[u8]) -> bool
    ensures { result ≡ any (Tab.is_unmarked marks.now) (length marks.now) }
{
    marks.iter().skip(1).any(|mark| *mark == 0)
}

// Whether a texture of the alternate kind has a stem that no primary one has.
fn has_lone(s: &[u8], base: u32, count: u32, table: &mut StemTable<u8>) -> bool
    ensures { result ≡ any (Tab.is_lone (passing s.now base Of.Alternate) (passing s.now base Of.Primary) (starts s.now base) (ends s.now base) count) count }
{
    let (words, marks) = (&mut *table.words, &mut *table.marks);
    let mut from = 0;
    // not by `for`: a part ends where its table is full
    while from < count {
        let filling = fill(s, base, Kind::Alternate, from, count, words);
        let marks = &mut marks[..filling.nodes];
        mark(s, base, Kind::Primary, count, words, &[], marks);
        if has_unmarked(marks) {
            return true;
        }
        from = filling.to;
    }
    false
}

// Whether the frame letter of an animated texture is missing or wrong.
#[tactic(auto, using(format::proofs::Chain::tests), unfolding(texture_list::specs::Kind::is_wrong_key))]
fn is_wrong(s: &[u8], base: u32, index: u32) -> bool
    ensures { result ≡ is_wrong_key (key_of s.now base index) }
{
    let key = key_of(s, base, index);
    key.first == b'+' && !matches!(key.frame, b'0'..=b'9' | b'a'..=b'j')
}

fn has_wrong(s: &[u8], base: u32, count: u32) -> bool
    ensures { result ≡ any (λ i. is_wrong_key (key_of s.now base i)) count }
{
    (0..count).any(|i| is_wrong(s, base, i))
}

// The frame letters of all textures, and then the alternate groups without a primary one.
#[tactic(auto, using(crate::proofs::Sequence::finds_wrong, crate::proofs::Sequence::finds_lone, crate::proofs::Sequence::finds_none))]
pub fn check_groups_in(s: &[u8], base: u32, count: u32, table: &mut StemTable<u8>) -> Answer<()>
    ensures { checked_step result ≡ sequenced (names_of s.now base) count }
{
    if has_wrong(s, base, count) {
        return Err(Refusal::InvalidFrame);
    }
    if has_lone(s, base, count, table) {
        return Err(Refusal::NoPrimaryFrames);
    }
    Ok(())
}

// With a table of N nodes. (How many there may be is asked here and of two functions more: a const parameter's type has no bounds.)
fn check_sized<const N: usize>(s: &[u8], base: u32, count: u32) -> Answer<()>
    requires { (2 ≤ N) × (N ≤ 16384) }
    ensures { checked_step result ≡ sequenced (names_of s.now base) count }
{
    let mut nodes = [[0; 4]; N];
    let mut marks = [0; N];
    let mut table = StemTable {
        words: nodes.as_flattened_mut(),
        marks: &mut marks,
    };
    check_groups_in(s, base, count, &mut table)
}

// With a table of its own: a small one, of 1,024 nodes, or a large one, of 16,384 nodes.
pub fn check_groups(s: &[u8], base: u32, count: u32) -> Answer<()>
    ensures { checked_step result ≡ sequenced (names_of s.now base) count }
{
    if count < 1024 {
        return check_sized::<1024>(s, base, count);
    }
    check_sized::<16384>(s, base, count)
}
