// The name of a texture.
ghost use Rattle.std.specs.Prelude.{◌≡◌, ◌≤◌, ◌+◌, length};
ghost use Rattle.texture_list.specs.Name.{name_at, is_ascii, little_endian};
ghost use Rattle.texture_list.specs.Key.{key_at};

use crate::kind::{Key, Stem};

// The byte that ends a name, if it comes before its 16 bytes are over.
const END: u8 = 0;

// Where the header of a texture lies, which begins with its name: the section's start, and the offset from it that stands in the list. Each
// is a word of the file, so that no place in a header is too large for a `usize`.
#[derive(Clone, Copy)]
pub struct Header {
    pub base: u32,
    pub offset: u32,
}

impl Header {
    pub fn start(self) -> usize
        ensures { result ≡ self.base + self.offset }
    {
        (self.base as usize) + (self.offset as usize)
    }
}

// Whether the 16 bytes of a name are ASCII up to the first zero.
pub fn is_ascii(s: &[u8], at: usize) -> bool
    ensures { result ≡ is_ascii s.now at 16 }
{
    s.iter()
        .skip(at)
        .take(16)
        .take_while(|b| **b != END)
        .all(|b| b.is_ascii())
}

// The 16 bytes of a texture's name: lowered, with zeros from the first zero on.
#[inline(always)]
#[tactic(auto, using(crate::proofs::Names::read_none, crate::proofs::Names::read_all))]
pub fn read_name(s: &[u8], header: Header) -> [u8; 16]
    ensures { result ≡ name_at s.now (header.base + header.offset) }
{
    let at = header.start();
    let mut name = [0; 16];
    for (i, c) in name.iter_mut().enumerate() {
        let b = s.get(at + i).copied().unwrap_or(END);
        if b == END {
            break;
        }
        *c = b.to_ascii_lowercase();
    }
    name
}

// At most eight bytes as a number, the lowest first. (Copied into a list of eight they would go through memory, which is slower.)
#[tactic(auto, using(crate::proofs::Names::number_is))]
pub fn number_of(bytes: &[u8]) -> u64
    requires { length bytes.now ≤ 8 }
    ensures { result ≡ little_endian bytes.now }
{
    let byte = |i: usize| bytes.get(i).copied().unwrap_or(0);
    u64::from_le_bytes([
        byte(0),
        byte(1),
        byte(2),
        byte(3),
        byte(4),
        byte(5),
        byte(6),
        byte(7),
    ])
}

// The key of a texture's name.
#[inline(always)]
#[tactic(auto, unfolding(crate::specs::Key::key_at))]
pub fn read_key(s: &[u8], header: Header) -> Key
    ensures { result ≡ key_at s.now (header.base + header.offset) }
{
    let name = read_name(s, header);
    let stem = &name[2..];
    Key {
        first: name[0],
        frame: name[1],
        stem: Stem {
            start: number_of(&stem[..7]),
            end: number_of(&stem[7..]),
        },
    }
}
