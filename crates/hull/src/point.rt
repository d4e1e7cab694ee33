// The walk of a point: to the contents at it, and to the leaf that it is in. The file, its map record and a hull stand apart, here and in
// `tracing`: one file serves many hulls, and a hull may be made by hand, so a struct of the three would be made anew for each call, and each
// contract would name its fields in their place.
ghost use Rattle.std.specs.Prelude.{◌≡◌};
ghost use Rattle.walk.specs.Walk.{with_visits, point_walk};
ghost use Rattle.nodes.specs.Tables.{leaf_table};
ghost use Rattle.nodes.specs.Fast as Fast;
ghost use Rattle.hull.specs.Hull as Hull;
ghost use Rattle.format.specs.Answers.{answer_of};

use crate::collision::BspCollisionHull;
use format::contents::BspLeafContents;
use format::refusal::{Answer, Refusal};
use format::section::BspData;
use math::Vector3;
use nodes::read::end_contents;
use nodes::table::{HullTable, Tables, tables_of};
use nodes::walking::walk_to_end;

// The contents at a point, from a node of a table on.
#[tactic(auto, using(crate::proofs::Founds::contents_refused, crate::proofs::Founds::contents_met_lem, crate::proofs::Founds::contents_unmet))]
#[inline(always)]
pub fn contents_in(
    s: &[u8],
    t: Tables,
    root: usize,
    point: Vector3,
) -> Answer<(BspLeafContents, u64)>
    ensures { answer_of result ≡ with_visits (point_walk (Fast.table s.now t) root point) }
{
    let (word, visits) = walk_to_end(s, t, root, point.x, point.y, point.z)?;
    let contents = end_contents(s, t, word)?;
    Ok((contents, visits))
}

// The contents at a point of a hull, `contents_at_point`.
pub fn contents_at_point(
    s: &[u8],
    map: BspData,
    hull: BspCollisionHull,
    point: Vector3,
) -> Answer<(BspLeafContents, u64)>
    ensures { answer_of result ≡ with_visits (point_walk (Hull.hull_table s.now map hull) hull.node_id point) }
{
    let table = hull.table;
    contents_in(
        s,
        tables_of(map, table, hull.mins, hull.maxs),
        hull.node_id,
        point,
    )
}

// The leaf that a point is in, from a render node on.
#[tactic(auto, using(crate::proofs::Founds::leaf_refused, crate::proofs::Founds::leaf_outside, crate::proofs::Founds::leaf_met))]
pub fn find_leaf_from(s: &[u8], map: BspData, root: usize, point: Vector3) -> Answer<(usize, u64)>
    ensures { answer_of result ≡ with_visits (point_walk (leaf_table s.now map) root point) }
{
    let t = tables_of(map, HullTable::Render, point, point);
    let leaves = t.leaves;
    let (word, visits) = walk_to_end(s, t, root, point.x, point.y, point.z)?;
    let leaf = (65535 - word) as usize;
    if (leaves.count as usize) <= leaf {
        return Err(Refusal::IndexOutsideTable);
    }
    Ok((leaf, visits))
}

// `find_leaf`: from render node 0.
pub fn find_leaf(s: &[u8], map: BspData, point: Vector3) -> Answer<(usize, u64)>
    ensures { answer_of result ≡ with_visits (point_walk (leaf_table s.now map) 0 point) }
{
    find_leaf_from(s, map, 0, point)
}
