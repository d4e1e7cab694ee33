// What reads a record at a position of the lent file bytes, as a type: so a function may be handed any reader, and asks nothing of it.
ghost use Rattle.std.specs.Prelude.{◌≡◌, ℕ, List};
ghost use Rattle.format.specs.Answers.{step_of};
ghost use Rattle.format.specs.Step.{Step};

use crate::field::Read;

// A reader, for whatever bytes and position: `reads` is the definition that says what it gives there. It is used up by one reading; one that reads
// records in a row is `Copy`.
pub trait Reader: Drop {
    type Record: Copy;

    ghost reads: { Self → List ℕ → ℕ → Step Self.Record };

    fn read(self, s: &[u8], at: usize) -> Read<Self::Record>
        ensures { step_of result ≡ reads self s.now at };
}
