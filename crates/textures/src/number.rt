// The numbers that textures get: static textures first, and then a number for each stem, by its earliest texture.
ghost use Rattle.std.specs.Prelude.{ℕ, Bool, ◌≡◌, true, not, ◌&&◌, ◌≤◌, ◌<◌, ◌+◌, ◌*◌, eqb, length};
ghost use Rattle.textures.specs.Count.{count, lowest};
ghost use Rattle.textures.specs.Group.{numbered_by};
ghost use Rattle.texture_list.specs.List.{names_of};
ghost use Rattle.texture_list.specs.Kind.{passing, starts, ends};
ghost use Rattle.textures.specs.Stems as Stems;
ghost use Rattle.textures.specs.Table as Tab;
ghost use Rattle.texture_list.specs.declared.kind.Kind.TheVariants as Of;

use crate::group::{fill, mark};
use crate::sieve::sift_all;
use crate::stem_table::StemTable;
use crate::table::{Located, seek};
use texture_list::kind::{Kind, Stem, is_kind, key_of};

// Whether a texture is static.
fn is_static(s: &[u8], base: u32, index: u32) -> bool
    ensures { result ≡ not (passing s.now base Of.Animated index) }
{
    !is_kind(Kind::Animated, key_of(s, base, index))
}

// How many of the first textures are static.
pub fn count_static(s: &[u8], base: u32, upto: u32) -> u32
    ensures { result ≡ count (λ i. not (passing s.now base Of.Animated i)) upto }
{
    (0..upto).filter(|i| is_static(s, base, *i)).count() as u32
}

// Whether a texture is the earliest with its stem. The table has the stem, and marks the stems of the textures before this one; this one's is
// marked too.
fn is_first(s: &[u8], base: u32, index: u32, t: &[u64], marks: &mut [u8]) -> bool
    requires { Tab.Table t.now (length marks.old) × (Stems.Marked s.now base Of.Animated t.now (length marks.old) marks.old index × (passing s.now base Of.Animated index ≡ true → Tab.Node t.now (length marks.old) (starts s.now base index) (ends s.now base index))) }
    ensures { (result ≡ Stems.is_earliest s.now base Of.Animated index) × Stems.Marked s.now base Of.Animated t.now (length marks.old) marks.new (index + 1) }
{
    let key = key_of(s, base, index);
    if !is_kind(Kind::Animated, key) {
        return false;
    }
    let Located::At(v) = seek(t, key.stem) else {
        return false;
    };
    let old = marks[v];
    marks[v] = 1;
    old == 0
}

// The texture that is sought, if it is there, and how many of its kind are before it; how many there are, if it is not.
#[derive(Clone, Copy)]
pub struct Firsts {
    pub at: Option<u32>,
    pub seen: u32,
}

// The earliest texture of the stem with k stems before it, in the part of the textures whose stems the table has.
#[tactic(auto, using(crate::proofs::Firsts::counting))]
fn scan(
    s: &[u8],
    base: u32,
    from: u32,
    to: u32,
    k: u32,
    before: u32,
    t: &[u64],
    marks: &mut [u8],
) -> Firsts
    requires { Stems.Filled s.now base Of.Animated from to t.now (length marks.old) × (Stems.Marked s.now base Of.Animated t.now (length marks.old) marks.old from × ((from ≤ to) × ((before ≡ count (Stems.is_earliest s.now base Of.Animated) from) × (before ≤ k)))) }
    ensures { Tab.Reached (Stems.is_earliest s.now base Of.Animated) k to result.at result.seen }
{
    let mut seen = before;
    // not by `nth_such`: the test writes the marks, and what it answers depends on those written before
    for i in from..to {
        if !is_first(s, base, i, t, marks) {
            continue;
        }
        if seen == k {
            return Firsts { at: Some(i), seen };
        }
        seen += 1;
    }
    Firsts { at: None, seen }
}

// The earliest texture of the stem with k stems before it, of the first textures.
#[tactic(auto, using(crate::proofs::Firsts::starts_at, crate::proofs::Firsts::further, crate::proofs::Firsts::past_counted, crate::proofs::Firsts::past_few, crate::proofs::Firsts::ended))]
fn find_first(
    s: &[u8],
    base: u32,
    upto: u32,
    k: u32,
    table: &mut StemTable<u8>,
    sieve: &mut [u8],
) -> Firsts
    ensures { Tab.Reached (Stems.is_earliest s.now base Of.Animated) k upto result.at result.seen }
{
    let (words, marks) = (&mut *table.words, &mut *table.marks);
    let mut from = 0;
    let mut seen = 0;
    // not by `for`: a part ends where its table is full
    while from < upto {
        let filling = fill(s, base, Kind::Animated, from, upto, words);
        let marks = &mut marks[..filling.nodes];
        sift_all(words, filling.nodes, sieve);
        mark(s, base, Kind::Animated, from, words, sieve, marks);
        let part = scan(s, base, from, filling.to, k, seen, words, marks);
        if part.at.is_some() {
            return part;
        }
        from = filling.to;
        seen = part.seen;
    }
    Firsts { at: None, seen }
}

// Whether a texture is animated and has a stem.
#[tactic(auto, using(format::proofs::Chain::tests))]
fn is_like(s: &[u8], base: u32, index: u32, stem: Stem) -> bool
    ensures { result ≡ (passing s.now base Of.Animated index && (eqb stem.start (starts s.now base index) && eqb stem.end (ends s.now base index))) }
{
    let key = key_of(s, base, index);
    is_kind(Kind::Animated, key) && stem == key.stem
}

// The earliest animated texture with a stem, or `upto` if none of the first textures has it: a number, and no `Option`, since it is the bound of
// the search that follows.
fn earliest_like(s: &[u8], base: u32, upto: u32, stem: Stem) -> u32
    ensures { (result ≡ lowest (λ i. passing s.now base Of.Animated i && (eqb stem.start (starts s.now base i) && eqb stem.end (ends s.now base i))) upto) × (result ≤ upto) }
{
    (0..upto)
        .find(|i| is_like(s, base, *i, stem))
        .unwrap_or(upto)
}

// `find_first` with a table of N nodes and a sieve of so many bytes.
fn find_first_sized<const N: usize, const SIEVE: usize>(
    s: &[u8],
    base: u32,
    upto: u32,
    k: u32,
) -> Firsts
    requires { (2 ≤ N) × (N ≤ 10240) × (SIEVE ≤ 131072) }
    ensures { Tab.Reached (Stems.is_earliest s.now base Of.Animated) k upto result.at result.seen }
{
    let mut nodes = [[0; 4]; N];
    let mut sieve = [0; SIEVE];
    let mut marks = [0; N];
    let mut table = StemTable {
        words: nodes.as_flattened_mut(),
        marks: &mut marks,
    };
    find_first(s, base, upto, k, &mut table, &mut sieve)
}

// The earliest texture of the stem with k stems before it, of the first textures. The large table has 10,240 nodes: it may lie on the stack
// together with that of the test that the section reads, and both stay below 1 MiB.
pub fn first_of(s: &[u8], base: u32, upto: u32, k: u32) -> Firsts
    ensures { Tab.Reached (Stems.is_earliest s.now base Of.Animated) k upto result.at result.seen }
{
    if upto < 1024 {
        return find_first_sized::<1024, 1024>(s, base, upto, k);
    }
    find_first_sized::<10240, 131072>(s, base, upto, k)
}

// The new number of a texture of the file.
#[tactic(auto, using(crate::proofs::Firsts::count_below, crate::proofs::Numbers::number_static, crate::proofs::Numbers::number_animated, crate::proofs::Numbers::seen_low))]
pub fn texture_number(s: &[u8], base: u32, count: u32, index: u32) -> u32
    requires { count ≤ 2097152 }
    ensures { result ≡ numbered_by (names_of s.now base) count index }
{
    let key = key_of(s, base, index);
    if is_kind(Kind::Animated, key) {
        let first = earliest_like(s, base, count, key.stem);
        // no stem has so many before it, so all are counted
        let firsts = first_of(s, base, first, 4294967295);
        return count_static(s, base, count) + firsts.seen;
    }
    count_static(s, base, index)
}

// The lowest number with k others before it, of those below `count` that pass a test.
#[tactic(auto, using(crate::proofs::Firsts::counting))]
pub fn nth_such<F: Fn(u32) -> bool>(count: u32, k: u32, passes: F) -> Firsts
    requires { F.IsAlwaysCallable passes }
    ensures { (p : ℕ → Bool) → ((i : ℕ) (r : Bool) → i < count → F.post passes i r → r ≡ p i) → Tab.Reached p k count result.at result.seen }
{
    let mut seen = 0;
    for i in 0..count {
        if !passes(i) {
            continue;
        }
        if seen == k {
            return Firsts { at: Some(i), seen };
        }
        seen += 1;
    }
    Firsts { at: None, seen }
}

// The static texture with k static ones before it: its number in the file.
pub fn nth_static(s: &[u8], base: u32, count: u32, k: u32) -> Firsts
    ensures { Tab.Reached (λ i. not (passing s.now base Of.Animated i)) k count result.at result.seen }
{
    nth_such(count, k, |i| is_static(s, base, i))
}
