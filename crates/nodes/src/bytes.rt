// Little-endian numbers, and the bytes of a plane, where the bytes are known to be there.
ghost use Rattle.std.specs.Prelude.{◌≡◌, ◌+◌, ◌≤◌, length, from_bits};
ghost use Rattle.std.specs.Float.{binary32};
ghost use Rattle.nodes.specs.Fast as Fast;

// The 16-bit number at a place. (The need, here and below, is that of the indices: as a `&[u8; 2]` or `&[u8; 4]` the caller would have it for the
// slice.)
#[tactic(auto, unfolding(crate::specs::Fast::u16))]
pub fn u16_at(s: &[u8], at: usize) -> u16
    requires { at + 2 ≤ length s.now }
    ensures { result ≡ Fast.u16 s.now at }
{
    u16::from_le_bytes([s[at], s[at + 1]])
}

// The 32-bit number at a place.
#[tactic(auto, unfolding(crate::specs::Fast::u32))]
pub fn u32_at(s: &[u8], at: usize) -> u32
    requires { at + 4 ≤ length s.now }
    ensures { result ≡ Fast.u32 s.now at }
{
    u32::from_le_bytes([s[at], s[at + 1], s[at + 2], s[at + 3]])
}

// The float at a place.
pub fn f32_at(s: &[u8], at: usize) -> f32
    requires { at + 4 ≤ length s.now }
    ensures { result ≡ from_bits binary32 (Fast.u32 s.now at) }
{
    float::num::from_bits(u32_at(s, at))
}

// The bytes of the plane at a place. What reads a plane takes them, and needs nothing.
#[tactic(auto, using(crate::proofs::Sections::plane_taken))]
#[inline(always)]
pub fn plane_bytes_at(s: &[u8], at: usize) -> &[u8; 20]
    requires { at + 20 ≤ length s.now }
    ensures { Fast.plane_here result.now 0 ≡ Fast.plane_here s.now at }
{
    s[at..at + 20].as_array::<20>().unwrap()
}
