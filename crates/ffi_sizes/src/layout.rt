// Body sizes as words, and from words.
ghost use Rattle.std.specs.Prelude.{◌≡◌};
ghost use Rattle.ffi_sizes.specs.Layout as Layout;

use ffi_hull::layout::vector_at;
use sizes::{BodySizes, Bounds};
use words::float_word;

// How many words body sizes have.
pub const SIZES_WORDS: usize = 12;

// Twelve words as body sizes, as they stand.
pub fn sizes_in(words: &[u64]) -> BodySizes
    ensures { result ≡ Layout.sizes_from words.now }
{
    BodySizes {
        hull_1: Bounds {
            mins: vector_at(words, 0),
            maxs: vector_at(words, 3),
        },
        hull_2: Bounds {
            mins: vector_at(words, 6),
            maxs: vector_at(words, 9),
        },
    }
}

pub fn sizes_words(sizes: BodySizes) -> [u64; SIZES_WORDS]
    ensures { result ≡ Layout.sizes_words sizes }
{
    let one = sizes.hull_1;
    let two = sizes.hull_2;
    let one_mins = one.mins;
    let one_maxs = one.maxs;
    let two_mins = two.mins;
    let two_maxs = two.maxs;
    [
        float_word(one_mins.x),
        float_word(one_mins.y),
        float_word(one_mins.z),
        float_word(one_maxs.x),
        float_word(one_maxs.y),
        float_word(one_maxs.z),
        float_word(two_mins.x),
        float_word(two_mins.y),
        float_word(two_mins.z),
        float_word(two_maxs.x),
        float_word(two_maxs.y),
        float_word(two_maxs.z),
    ]
}
