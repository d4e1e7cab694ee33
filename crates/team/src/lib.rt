// What a team can see: the leaves that one of its players sees.
#![tactic(auto)]

ghost use Rattle.std.specs.Prelude.{◌≡◌};
ghost use Rattle.format.specs.Answers.{answer_of};
ghost use Rattle.format.specs.Listed.{listed, into};
ghost use Rattle.team.specs.Team.{team_of};

use format::refusal::{Answer, Refusal};
use format::section::BspData;

mod players;
mod pool;

// Lists the leaves that one of up to 16 players sees, of as many leaves as the caller says, from the players' leaves. The lent list gets
// them at its front in order, each once, and its other entries are kept; a refusal writes nothing.
#[tactic(auto, using(format::proofs::Listing::into_none, crate::proofs::Found::too_many, crate::proofs::Found::team_refused, crate::proofs::Found::team_whole, crate::proofs::Found::team_lies, crate::proofs::Found::team_rows, crate::proofs::Found::team_none, crate::proofs::Found::none_found, crate::proofs::Found::some_found))]
pub fn pvs_team(
    file: &[u8],
    map: BspData,
    leaves: &[u64],
    leaf_count: usize,
    list: &mut [u32],
) -> Answer<usize>
    ensures { listed (answer_of result) list.new ≡ into (team_of file.now map leaves.now leaf_count) list.old }
{
    if 16 < leaves.len() {
        return Err(Refusal::TooManyPlayers);
    }
    players::ask_all(file, map, leaves, leaf_count)?;
    let mut starts = [0usize; 16];
    let rows = players::find_rows(file, map, leaves, &mut starts);
    if rows == 0 {
        return Ok(0);
    }
    pool::list_rows(file, map.visibility, &starts[..rows], leaf_count, list)
}
