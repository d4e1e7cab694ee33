// Whether bytes are well-formed UTF-8, as Rust's `String::from_utf8` tests an entity text.
#![tactic(auto)]

ghost use Rattle.std.specs.Prelude.{◌≡◌};
ghost use Rattle.utf8.specs.Unicode.{is_utf8};

// What `Unicode.antt`, which `is_utf8` is stated by, knows after some bytes: how many more must follow in the character, and the range of the
// next of them. (No function makes one.)
#[derive(Clone, Copy)]
pub struct Want {
    pub more: u8,
    pub low: u8,
    pub high: u8,
}

// The same where a byte may have been out of place: `None`.
pub type Utf8 = Option<Want>;

// Whether Rust's `String::from_utf8` takes these bytes.
#[tactic(auto, using(crate::proofs::Library::taken, crate::proofs::Library::refused, crate::proofs::Library::below_surrogates))]
pub fn is_utf8(t: &[u8]) -> bool
    ensures { result ≡ is_utf8 t.now }
{
    std::str::from_utf8(t).is_ok()
}
