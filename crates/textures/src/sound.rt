// Whether the texture section of a map record reads.
ghost use Rattle.std.specs.Prelude.{◌≡◌};
ghost use Rattle.textures.specs.Access.{sound_at};

use crate::group::{check_groups, check_groups_in};
use crate::stem_table::StemTable;
use texture_list::section::read_textures;

// Whether the section reads as it does on loading, its end position aside.
#[tactic(auto, using(format::proofs::Chain::steps, format::proofs::Chain::tests), unfolding(crate::specs::Access::sound_at))]
pub fn is_sound_in(s: &[u8], base: u32, count: u32, table: &mut StemTable<u8>) -> bool
    ensures { result ≡ sound_at s.now base count }
{
    count <= 2097152
        && read_textures(s, base, count).is_ok()
        && check_groups_in(s, base, count, table).is_ok()
}

// The same with a table of its own, of `check_groups`.
#[tactic(auto, using(format::proofs::Chain::steps, format::proofs::Chain::tests), unfolding(crate::specs::Access::sound_at))]
pub fn is_sound(s: &[u8], base: u32, count: u32) -> bool
    ensures { result ≡ sound_at s.now base count }
{
    count <= 2097152
        && read_textures(s, base, count).is_ok()
        && check_groups(s, base, count).is_ok()
}
