// Where loading refuses a file, as words in a list that a caller lends; and the library's version.
#![tactic(auto)]

ghost use Rattle.std.specs.Prelude.{◌≡◌};
ghost use Rattle.words.specs.Words.{written};
ghost use Rattle.ffi_place.specs.Calls as Calls;

use place::load_place;
use words::LIST_TOO_SHORT;

// The refusal's number, 0 where the file loads; the section's number in the directory, 15 for the header; the record; the byte.
// 22: a list of fewer than 4 words.
#[tactic(auto, using(crate::proofs::Placing::too_short))]
pub fn place(file: &[u8], out: &mut [u64]) -> u32
    ensures { written result out.new ≡ Calls.bsp_load_place file.now out.old }
{
    if out.len() < 4 {
        return LIST_TOO_SHORT;
    }
    match load_place(file) {
        Ok(()) => words::give(&[0, 0, 0, 0], out),
        Err(at) => words::give(
            &[
                at.refusal.number() as u64,
                at.section_number() as u64,
                at.stop.index as u64,
                at.stop.byte as u64,
            ],
            out,
        ),
    }
}

// The library's version, 0.2.0: 65,536 times the first number, 256 times the second, and the third.
pub fn version() -> u32
    ensures { result ≡ Calls.bsp_version }
{
    512
}
