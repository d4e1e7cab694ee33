// Whole-map acceptance (Note 4): may this map go on the rota? One call with one answer that holds for every query afterwards.
#![tactic(auto)]

ghost use Rattle.std.specs.Prelude.{◌≡◌, length};
ghost use Rattle.format.specs.Answers.{answer_of};
ghost use Rattle.accept.specs.Accept as Acc;

use format::refusal::{Answer, Refusal};
use format::section::{BspData, BspFileSectionId};

mod check;
mod references;
mod row;
mod trees;

// One mark for each node of the larger node table.
#[tactic(auto, unfolding(crate::specs::Accept::marks_for))]
fn marks_for(map: BspData) -> u32
    ensures { result ≡ Acc.marks_for map }
{
    let render = map.render_nodes.record_count(BspFileSectionId::RenderNodes);
    let clip = map
        .collision_nodes
        .record_count(BspFileSectionId::CollisionNodes);
    render.max(clip)
}

// All checks, in their order.
#[tactic(auto, unfolding(crate::specs::Accept::accept_of))]
fn check_map(file: &[u8], map: BspData, marks: &mut [u8]) -> Answer<()>
    requires { length marks.old ≡ Acc.marks_for map }
    ensures { answer_of result ≡ Acc.accept_of file.now map }
{
    references::check_references(file, map)?;
    trees::check_trees(file, map, marks)
}

// Whether the map passes, with one lent mark for each node of the larger node table (else 22 first of all, and the marks stay as they
// were). Whatever the marks hold before, the first ones are zero afterwards, refused or not; later ones are kept.
pub fn accept(file: &[u8], map: BspData, marks: &mut [u8]) -> Answer<()>
    ensures { Acc.judged (answer_of result) marks.new ≡ Acc.accept file.now map marks.old }
{
    let count = marks_for(map) as usize;
    if marks.len() < count {
        return Err(Refusal::ListTooShort);
    }
    let own = &mut marks[..count];
    let answer = check_map(file, map, own);
    own.fill(0);
    answer
}
