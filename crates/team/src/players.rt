// The players of a team: whether the list of each is answered, and where their rows start.
ghost use Rattle.std.specs.Prelude.{◌≡◌, ◌≤◌, length, take};
ghost use Rattle.format.specs.Answers.{answer_of};
ghost use Rattle.vis.specs.Pvs.{pvs_of};
ghost use Rattle.team.specs.Team.{lists_of};
ghost use Rattle.team.specs.Starts.{whether, offset_in, start_of, starts_of};

use format::refusal::{Answer, Refusal};
use format::section::BspData;
use vis::get_pvs;

// Whether a player's list is answered, or with what it is refused. The list itself is not asked for: one that finds no room is answered, so
// that `?` would hand on a refusal too many.
#[tactic(auto, using(crate::proofs::Asked::pvs_not22, crate::proofs::Asked::told_listed, crate::proofs::Asked::told_short, crate::proofs::Asked::told_refused))]
fn ask(file: &[u8], map: BspData, leaf: usize, leaf_count: usize) -> Answer<()>
    ensures { answer_of result ≡ whether (pvs_of file.now map leaf leaf_count) }
{
    match get_pvs(file, map, leaf, leaf_count, &mut [0]) {
        Ok(_) | Err(Refusal::ListTooShort) => Ok(()),
        Err(e) => Err(e),
    }
}

// The same for all players, in their order: the first refusal.
#[tactic(auto, using(crate::proofs::Asked::ask_ends, crate::proofs::Asked::ask_refused, crate::proofs::Asked::ask_next))]
pub fn ask_all(file: &[u8], map: BspData, leaves: &[u64], leaf_count: usize) -> Answer<()>
    ensures { answer_of result ≡ whether (lists_of file.now map leaf_count leaves.now) }
{
    for &leaf in leaves {
        ask(file, map, leaf as usize, leaf_count)?;
    }
    Ok(())
}

// Where the row of a leaf starts. Leaf 0, a leaf that cannot be read and one with no offset have none.
#[tactic(auto, unfolding(crate::specs::Starts::start_of))]
fn start_of(file: &[u8], map: BspData, leaf: usize) -> Option<usize>
    ensures { offset_in result ≡ start_of file.now map leaf }
{
    if leaf == 0 {
        return None;
    }
    records::leaf::leaf(file, map, leaf).ok()?.vis_offset
}

// The starts of the players' rows, at the front of `starts`, and how many there are.
#[tactic(auto, using(crate::proofs::Found::find_starts, crate::proofs::Found::find_ends, crate::proofs::Found::find_none, crate::proofs::Found::find_some))]
pub fn find_rows(file: &[u8], map: BspData, leaves: &[u64], starts: &mut [usize]) -> usize
    requires { length leaves.now ≤ length starts.old }
    ensures { (result ≤ length leaves.now) × (take result starts.new ≡ starts_of file.now map leaves.now) }
{
    let mut rows = 0;
    for &leaf in leaves {
        if let Some(at) = start_of(file, map, leaf as usize) {
            starts[rows] = at;
            rows += 1;
        }
    }
    rows
}
