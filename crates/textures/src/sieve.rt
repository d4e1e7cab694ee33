// A sieve: bytes by which most stems that a table has not are told from those that it has, before the table is searched.
ghost use Rattle.std.specs.Prelude.{ℕ, ◌≡◌, ◌≤◌, ◌*◌, length};
ghost use Rattle.textures.specs.Sieve.{place_of, may_have, Sifted, Sieved, SameNode};
ghost use Rattle.textures.specs.Table as Tab;

use crate::table::{Located, mix, seek};
use texture_list::kind::Stem;

// The place of a stem, of 131,072.
#[tactic(auto, unfolding(crate::specs::Sieve::place_of))]
fn place_of(stem: Stem) -> usize
    ensures { result ≡ place_of stem.start stem.end }
{
    (mix(stem) / 32768) as usize
}

// Puts a stem into the sieve, if it has its place.
#[tactic(auto, using(crate::proofs::Sieves::sift_past))]
fn sift(sieve: &mut [u8], stem: Stem)
    ensures { Sifted sieve.old stem.start stem.end sieve.new }
{
    let place = place_of(stem);
    if place < sieve.len() {
        sieve[place] = 1;
    }
}

// Puts the stems of all nodes into the sieve, and no other. Not from a slice of the nodes: the searches have the whole table, and what the
// sieve has would have to be said of both.
pub fn sift_all(t: &[u64], nodes: usize, sieve: &mut [u8])
    requires { 4 * nodes ≤ length t.now }
    ensures { Sieved t.now nodes sieve.new }
{
    sieve.fill(0);
    for v in 1..nodes {
        let stem = Stem {
            start: t[4 * v],
            end: t[4 * v + 1],
        };
        sift(sieve, stem);
    }
}

// Whether the table may have a stem.
#[tactic(auto, using(format::proofs::Chain::tests), unfolding(crate::specs::Sieve::may_have))]
fn may_have(sieve: &[u8], stem: Stem) -> bool
    ensures { result ≡ may_have sieve.now stem.start stem.end }
{
    let place = place_of(stem);
    sieve.len() <= place || sieve[place] != 0
}

// The node with a stem, if there is one; the table is searched only where it may have the stem. (That it is a table of so many nodes is asked, as
// of `insert`.)
pub fn seek_sifted(t: &[u64], sieve: &[u8], stem: Stem) -> Option<usize>
    requires { (nodes : ℕ) × Tab.Table t.now nodes × Sieved t.now nodes sieve.now }
    ensures { SameNode result (Tab.seek t.now stem.start stem.end 145 0 0) }
{
    if !may_have(sieve, stem) {
        return None;
    }
    match seek(t, stem) {
        Located::At(v) => Some(v),
        _ => None,
    }
}
