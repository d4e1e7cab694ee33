// The names of the section's textures by their numbers in the file, and their kinds.
ghost use Rattle.std.specs.Prelude.{◌≡◌};
ghost use Rattle.texture_list.specs.Kind.{key_of, is_kind};

use crate::name::{Header, read_key};
use records::number::read_offset;

// A stem as two numbers: its first seven bytes, and the others.
#[derive(Clone, Copy, PartialEq, Eq)]
pub struct Stem {
    pub start: u64,
    pub end: u64,
}

// A name: its first byte, its frame where the first is a plus sign, and its stem.
#[derive(Clone, Copy)]
pub struct Key {
    pub first: u8,
    pub frame: u8,
    pub stem: Stem,
}

// What a search asks for.
#[derive(Clone, Copy)]
pub enum Kind {
    Animated,
    Primary,
    Alternate,
}

// The name of a texture that is absent: of no kind, since it does not begin with a plus sign; so no Option is asked of each search.
const NO_KEY: Key = Key {
    first: 0,
    frame: 0,
    stem: Stem { start: 0, end: 0 },
};

// The name of the texture of a number in the file.
// Inlined: who asks for the kind of a texture alone does not read the rest of its name then. (The parameters of the calls of `section`.)
#[inline(always)]
#[tactic(auto, unfolding(crate::specs::Kind::key_of))]
pub fn key_of(s: &[u8], base: u32, index: u32) -> Key
    ensures { result ≡ key_of s.now base index }
{
    match read_offset(s, (base as usize) + 4 + 4 * (index as usize)) {
        Ok((Some(offset), _)) => read_key(s, Header { base, offset }),
        _ => NO_KEY,
    }
}

// Whether a name is of a kind.
#[tactic(auto, using(format::proofs::Chain::tests), unfolding(crate::specs::Kind::is_kind))]
pub fn is_kind(kind: Kind, key: Key) -> bool
    ensures { result ≡ is_kind kind key }
{
    key.first == b'+'
        && match kind {
            Kind::Animated => true,
            Kind::Primary => matches!(key.frame, b'0'..=b'9'),
            Kind::Alternate => matches!(key.frame, b'a'..=b'j'),
        }
}
