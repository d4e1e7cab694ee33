// The walk of a point down a node table, to the end that it comes to: by numbers alone where the file has all records of the nodes and the
// planes (`quick`), else record by record. The coordinates are numbers, as in `quick`.
ghost use Rattle.std.specs.Prelude.{◌≡◌, ◌<◌};
ghost use Rattle.math.specs.Vector as Vec;
ghost use Rattle.walk.specs.Walk.{with_visits, point_walk};
ghost use Rattle.nodes.specs.Fast as Fast;
ghost use Rattle.nodes.specs.Walks as Walks;
ghost use Rattle.nodes.specs.Quick as Quick;

use crate::quick::walk_quick;
use crate::read::{read_words, side_at};
use crate::table::Tables;
use crate::whole::are_whole;
use format::refusal::{Answer, Refusal};
use math::Vector3;

// The word of the child that the point goes on to from a node of the table.
fn onward_from(s: &[u8], t: Tables, index: usize, point: Vector3) -> Answer<u16>
    ensures { Walks.onward_answer t.table result ≡ Walks.made_from (Walks.child_toward point) s.now t index }
{
    let words = read_words(s, t, index)?;
    let front = side_at(s, t, words.plane as usize, point)?;
    Ok(words.on(front))
}

// The walk, record by record. No `for` over the visits: the node is tested before them, after the last one too.
fn walk_by_records(s: &[u8], t: Tables, root: usize, point: Vector3) -> Answer<(u16, u64)>
    ensures { Walks.walk_end_answer t.table result ≡ with_visits (point_walk (Walks.ends (Fast.table s.now t)) root point) }
{
    let part = t.nodes;
    let limit = part.count as u64;
    let mut node = root;
    let mut visits: u64 = 0;
    loop {
        if (part.count as usize) <= node {
            return Err(Refusal::IndexOutsideTable);
        }
        if limit <= visits {
            return Err(Refusal::WalkTooLong);
        }
        let word = onward_from(s, t, node, point)?;
        visits += 1;
        if 32768 <= word {
            return Ok((word, visits));
        }
        node = word as usize;
    }
}

// The end's word times 2^32 and the visits; 0 where the table is not whole or the walk is refused. (One number, as of `walk_quick`.)
#[inline(always)]
fn walk_in_whole(s: &[u8], t: Tables, root: usize, x: f32, y: f32, z: f32) -> u64
    ensures { 0 < result → Quick.end_and_visits t.table result ≡ with_visits (point_walk (Walks.ends (Fast.table s.now t)) root (Vec.vector x y z)) }
{
    if !are_whole(t, s.len()) {
        return 0;
    }
    let n = t.nodes;
    let m = t.planes;
    let table = t.table;
    walk_quick(
        s,
        n.at,
        n.count,
        m.at,
        m.count,
        table.is_render(),
        root,
        x,
        y,
        z,
    )
}

// The walk of the point (x, y, z). 30: the node is outside its table; 31: as many nodes as the table holds were entered; then its record
// (23), its plane's number (30) and its plane (23).
#[inline(always)]
pub fn walk_to_end(s: &[u8], t: Tables, root: usize, x: f32, y: f32, z: f32) -> Answer<(u16, u64)>
    ensures { Walks.walk_end_answer t.table result ≡ with_visits (point_walk (Walks.ends (Fast.table s.now t)) root (Vec.vector x y z)) }
{
    let end = walk_in_whole(s, t, root, x, y, z);
    let word = end / 4294967296;
    if 0 < end {
        if word < 65536 {
            return Ok((word as u16, end % 4294967296));
        }
    }
    walk_by_records(s, t, root, Vector3 { x, y, z })
}
