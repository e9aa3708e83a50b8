//! The words of a line, and the numbers that they write.

ghost use Rattle.std.specs.Prelude.{◌≡◌, ◌<◌, ◌≤◌, ◌==◌, ◌∷◌, length, IfSome};
ghost use Rattle.std.specs.Option.{option_copied};
ghost use Rattle.std.specs.List.{position};
ghost use Rattle.dp_text.specs.Words as spec;

use crate::value_upto;

fn first_space(text: &[u8]) -> Option<usize>
    ensures { result ≡ position (λ byte. byte == 32) text.now }
{
    text.iter().position(|byte| *byte == b' ')
}

/// The first word, and what follows the space behind it, if one stands there.
pub fn next_word(text: &[u8]) -> (&[u8], Option<&[u8]>)
    ensures words { spec.words text.now ≡ result.0.now ∷ spec.words_behind (option_copied result.1) }
    ensures shorter { IfSome result.1 (λ rest. length rest.now < length text.now) }
{
    match first_space(text) {
        None => (text, None),
        Some(len) => {
            let (word, _) = text.split_at(len);
            let (_, rest) = text.split_at(len + 1);
            (word, Some(rest))
        }
    }
}

fn is_plain(word: &[u8]) -> bool
    ensures { result ≡ spec.is_plain_digits word.now }
{
    match word {
        [] => false,
        [_] => true,
        [first, ..] => *first != b'0',
    }
}

/// The number that a word writes without leading zeros, where it is at most `most`.
pub fn number_upto(most: u64, word: &[u8]) -> Option<u64>
    ensures value { result ≡ spec.number_upto most word.now }
    ensures within { IfSome result (λ n. n ≤ most) }
{
    if is_plain(word) {
        value_upto(most, word)
    } else {
        None
    }
}

/// The same of a number of 32 bits.
pub fn number(word: &[u8]) -> Option<u32>
    ensures { result ≡ spec.small_number word.now }
{
    let number = number_upto(4_294_967_295, word)?;
    Some(number as u32)
}
