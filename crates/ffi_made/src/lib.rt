// Made-up maps as words in lists that a caller lends.
#![tactic(auto)]

ghost use Rattle.std.specs.Prelude.{◌≡◌};
ghost use Rattle.words.specs.Words.{left};
ghost use Rattle.ffi_made.specs.Calls as Calls;

use format::refusal::Refusal;
use words::{LIST_TOO_SHORT, give_number};

// The node count is outside 1 to 500. (As a constant, as those of `words`.)
pub const NODE_COUNT_OUTSIDE: u32 = Refusal::NodeCountOutside as u32;

// The file of a made-up map at the front of `buffer`, and its length. 29: a node count outside 1 to 500; then 22: no word for the length
// or a buffer that is too short.
pub fn made_up(seed: u32, nodes: u64, buffer: &mut [u8], out: &mut [u64]) -> u32
    ensures { left result buffer.new out.new ≡ Calls.bsp_made_up seed nodes buffer.old out.old }
{
    if !made::is_node_count(nodes as usize) {
        return NODE_COUNT_OUTSIDE;
    }
    if out.is_empty() {
        return LIST_TOO_SHORT;
    }
    give_number(made::made_up(seed, nodes as usize, buffer), out)
}
