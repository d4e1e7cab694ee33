// A text of hexadecimal words, each ended by a space or a line end.
ghost use Rattle.trials.specs.Prefix.{IsPrefixLen};

// The value of a digit, 0 to 9 or a to f; 16 for any other byte.
fn digit(byte: u8) -> u64 {
    match byte {
        b'0'..=b'9' => (byte - b'0') as u64,
        b'a'..=b'f' => (byte - b'a') as u64 + 10,
        _ => 16,
    }
}

// A word with one digit more; of more than sixteen digits the last sixteen count.
fn longer(word: u64, digit: u64) -> u64 {
    (word % 1152921504606846976 * 16).wrapping_add(digit)
}

// Puts the words of the text at the front of the list, as many as it has room for, and answers how many there are.
pub fn words_of(text: &[u8], words: &mut [u64]) -> usize
    ensures { IsPrefixLen result words.new }
{
    let mut count = 0;
    let mut word = 0;
    for &byte in text {
        let value = digit(byte);
        if value < 16 {
            word = longer(word, value);
        } else if count < words.len() {
            words[count] = word;
            count += 1;
            word = 0;
        }
    }
    count
}
