// The first texture with the stem of each texture, for all textures at once. A table of stems is filled with those of a part of the textures
// at a time, and all textures from there on are looked up in it, so that the time grows with the textures and the parts. A sieve spares most
// of the searches for stems of other parts.
ghost use Rattle.std.specs.Prelude.{◌≡◌, ◌≤◌, ◌<◌, ◌+◌, ◌*◌, length};
ghost use Rattle.format.specs.Listed.{listed, into};
ghost use Rattle.textures.specs.Count.{values_below};
ghost use Rattle.texture_list.specs.List.{names_of};
ghost use Rattle.format.specs.Answers.{answer_of};
ghost use Rattle.textures.specs.Private.{earliest_by, earliest_textures};
ghost use Rattle.textures.specs.Sieve.{Sieved};
ghost use Rattle.textures.specs.Stems as Stems;
ghost use Rattle.texture_list.specs.declared.kind.Kind.TheVariants as Of;

use crate::group::fill;
use crate::sieve::{seek_sifted, sift_all};
use crate::sound::is_sound_in;
use crate::stem_table::StemTable;
use format::refusal::{Answer, Refusal};
use format::section::BspData;
use texture_list::kind::{Kind, is_kind, key_of};

// Said of a static texture in the place of the first one with its stem: no texture. (A number, since a list has one for each texture.)
pub const NONE: u32 = u32::MAX;

// The textures whose stems a table has.
#[derive(Clone, Copy)]
struct Part {
    from: u32,
    to: u32,
}

// The first texture with the stem of a texture, or what was known before the part. The first texture with the stem of each node is noted.
fn look_up(
    s: &[u8],
    base: u32,
    part: Part,
    index: u32,
    known: u32,
    t: &[u64],
    sieve: &[u8],
    heads: &mut [u32],
) -> u32
    requires { Stems.Filled s.now base Of.Animated part.from part.to t.now (length heads.old) × (Stems.Heads s.now base Of.Animated t.now (length heads.old) part.from heads.old index × ((part.from ≤ index) × ((part.from ≤ part.to) × ((index < 2097152) × ((known ≡ Stems.known_of s.now base Of.Animated part.from index) × Sieved t.now (length heads.old) sieve.now))))) }
    ensures { (result ≡ Stems.known_of s.now base Of.Animated part.to index) × Stems.Heads s.now base Of.Animated t.now (length heads.old) part.from heads.new (index + 1) }
{
    if known != NONE {
        return known;
    }
    let key = key_of(s, base, index);
    if !is_kind(Kind::Animated, key) {
        return NONE;
    }
    let Some(v) = seek_sifted(t, sieve, key.stem) else {
        return NONE;
    };
    let head = heads[v];
    if head != NONE {
        return head;
    }
    heads[v] = index;
    index
}

// The same for all textures from the part on: the list has an entry for each texture.
fn look_up_all(
    s: &[u8],
    base: u32,
    part: Part,
    t: &[u64],
    sieve: &[u8],
    heads: &mut [u32],
    list: &mut [u32],
)
    requires { Stems.Filled s.now base Of.Animated part.from part.to t.now (length heads.old) × ((part.from ≤ part.to) × ((part.to ≤ length list.old) × ((length list.old ≤ 2097152) × (Stems.Known s.now base Of.Animated (length list.old) part.from list.old × Sieved t.now (length heads.old) sieve.now)))) }
    ensures { Stems.Known s.now base Of.Animated (length list.old) part.to list.new }
{
    heads.fill(NONE);
    for i in part.from..list.len() as u32 {
        let known = list[i as usize];
        list[i as usize] = look_up(s, base, part, i, known, t, sieve, heads);
    }
}

// Part by part. The table, whose marks are the nodes' textures, and its sieve are for the function's own use.
fn look_up_parts(
    s: &[u8],
    base: u32,
    table: &mut StemTable<u32>,
    sieve: &mut [u8],
    list: &mut [u32],
)
    requires { (length list.old ≤ 2097152) × Stems.Known s.now base Of.Animated (length list.old) 0 list.old }
    ensures { Stems.Known s.now base Of.Animated (length list.old) (length list.old) list.new }
{
    let count = list.len() as u32;
    let (words, heads) = (&mut *table.words, &mut *table.marks);
    let mut from = 0;
    // not by `for`: a part ends where its table is full
    while from < count {
        let filling = fill(s, base, Kind::Animated, from, count, words);
        let heads = &mut heads[..filling.nodes];
        sift_all(words, filling.nodes, sieve);
        let part = Part {
            from,
            to: filling.to,
        };
        look_up_all(s, base, part, words, sieve, heads, list);
        from = filling.to;
    }
}

// The first texture with the stem of each texture of a section, which has as many as the list has entries.
#[tactic(auto, using(crate::proofs::Leads::all_found))]
fn find_each(s: &[u8], base: u32, table: &mut StemTable<u32>, sieve: &mut [u8], list: &mut [u32])
    requires { length list.old ≤ 2097152 }
    ensures { list.new ≡ values_below (earliest_by (names_of s.now base) (length list.old)) (length list.old) }
{
    list.fill(NONE);
    look_up_parts(s, base, table, sieve, list);
}

// For each texture of the map, by its number in the file, the first one with its stem, and 2^32 - 1 for a static one, which has none: at the
// front of a lent list, whose other entries are kept. 23 where the section does not read, then 22; a refusal writes nothing. The test that the
// section reads and the search have the words in turn, each with marks of its own: so words and marks are lent one by one, and are made a
// `StemTable` for each of the two. All but the list is for the function's own use.
#[tactic(auto, using(crate::proofs::Leads::earliest_unsound, crate::proofs::Leads::earliest_short, crate::proofs::Leads::earliest_listed))]
fn list_earliest(
    file: &[u8],
    map: BspData,
    t: &mut [u64],
    marks: &mut [u8],
    sieve: &mut [u8],
    heads: &mut [u32],
    list: &mut [u32],
) -> Answer<u32>
    requires { (8 ≤ length t.old) × ((length t.old ≡ 4 * length marks.old) × (length t.old ≡ 4 * length heads.old)) }
    ensures { listed (answer_of result) list.new ≡ into (earliest_textures file.now map) list.old }
{
    let (base, count) = (map.textures.offset, map.texture_count);
    let mut table = StemTable {
        words: &mut *t,
        marks,
    };
    if !is_sound_in(file, base, count, &mut table) {
        return Err(Refusal::Unreadable);
    }
    let end = count as usize;
    if list.len() < end {
        return Err(Refusal::ListTooShort);
    }
    let mut table = StemTable {
        words: t,
        marks: heads,
    };
    find_each(file, base, &mut table, sieve, &mut list[..end]);
    Ok(count)
}

// With a table of N nodes and a sieve of so many bytes.
fn list_sized<const N: usize, const SIEVE: usize>(
    file: &[u8],
    map: BspData,
    list: &mut [u32],
) -> Answer<u32>
    requires { (2 ≤ N) × (N ≤ 22528) × (SIEVE ≤ 131072) }
    ensures { listed (answer_of result) list.new ≡ into (earliest_textures file.now map) list.old }
{
    let mut nodes = [[0; 4]; N];
    let mut marks = [0; N];
    let mut sieve = [0; SIEVE];
    let mut heads = [0; N];
    list_earliest(
        file,
        map,
        nodes.as_flattened_mut(),
        &mut marks,
        &mut sieve,
        &mut heads,
        list,
    )
}

// The same, with tables of its own: small ones, of 1,024 nodes, or large ones, of 22,528 nodes, which stay below 1 MiB together.
pub fn earliest_textures(file: &[u8], map: BspData, list: &mut [u32]) -> Answer<u32>
    ensures { listed (answer_of result) list.new ≡ into (earliest_textures file.now map) list.old }
{
    if map.texture_count < 1024 {
        return list_sized::<1024, 1024>(file, map, list);
    }
    list_sized::<22528, 131072>(file, map, list)
}
