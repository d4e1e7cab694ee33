// What a segment's way down needs of a node: its words, and how far the segment's ends are from its plane.
ghost use Rattle.std.specs.Prelude.{◌≡◌};
ghost use Rattle.nodes.specs.Walks as Walks;

use crate::here::dists_here;
use crate::read::{Words, dists_at, read_words};
use crate::table::Tables;
use crate::whole::Sections;
use format::refusal::Answer;
use math::Vector3;

impl<'a> Sections<'a> {
    // A node's words, and how far two points are from its plane, from the bytes of the two sections; `ends_in` of `lines` has the same of points that
    // are lists. 20: there is no such node. (The points are a segment's ends: a struct of both would be made from a caller's two and be taken apart at
    // once.)
    #[tactic(auto, using(crate::proofs::Handed::none_found))]
    pub fn segment_in(&self, index: usize, p: Vector3, q: Vector3) -> Answer<(Words, f32, f32)>
        ensures { Walks.MadeOf (Walks.node_and_dists p q) self.now.render self.now.nodes.now self.now.planes.now index (λ t. Walks.segment_answer t result) }
    {
        let (words, plane) = self.found_in(index)?;
        let (a, b) = dists_here(plane, p, q);
        Ok((words, a, b))
    }
}

// The same from any table, record by record.
#[inline(always)]
pub fn segment_any(
    s: &[u8],
    t: Tables,
    index: usize,
    p: Vector3,
    q: Vector3,
) -> Answer<(Words, f32, f32)>
    ensures { Walks.segment_answer t.table result ≡ Walks.made_from (Walks.node_and_dists p q) s.now t index }
{
    let words = read_words(s, t, index)?;
    let (a, b) = dists_at(s, t, words.plane as usize, p, q)?;
    Ok((words, a, b))
}
