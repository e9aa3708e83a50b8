//! The reader of input texts.
ghost use Rattle.std.specs.Prelude.{◌≡◌, ◌+◌, ◌<◌, ◌≤◌, ◌∷◌, [], not, length, IfSome, MatchOption};
ghost use Rattle.std.specs.List.{position};
ghost use Rattle.dp_edge.specs.Input.{is_blank, input_words, number_written, numbers_at, numbers_of, AnswersInput};
ghost use Rattle.dp_edge.specs.Digits.{magnitude_of};

use dp_base::limits::{COUNTED, INPUT_WORDS};
use dp_base::{NoMemory, Row};
use dp_text::value_upto;
use std::alloc::Global;

/// Why a text is no input.
#[derive(Clone, Copy)]
pub enum InputFail {
    /// It has more than `INPUT_WORDS` words. The count stands at `COUNTED` where there are more.
    TooMany { count: u32 },
    /// A word is no number: the first such word, counted from 1.
    Refused { word: u32 },
    /// Memory was wanting.
    NoMemory,
}

impl From<NoMemory> for InputFail {
    ghost use Rattle.std.specs.Prelude.{◌≡◌};
    ghost use Rattle.dp_edge.specs.declared.input.InputFail.TheVariants.{NoMemory};

    ghost from_gives = { λ _ fail. fail ≡ NoMemory };

    fn from(_wanting: NoMemory) -> InputFail {
        InputFail::NoMemory
    }
}

fn is_blank_byte(byte: u8) -> bool
    ensures { result ≡ is_blank byte }
{
    byte == b' ' || byte == b'\t' || byte == b'\r' || byte == b'\n'
}

// Where the first word begins.
fn first_word(text: &[u8]) -> Option<usize>
    ensures { result ≡ position (λ byte. not (is_blank byte)) text.now }
{
    text.iter().position(|byte| !is_blank_byte(*byte))
}

fn first_blank(text: &[u8]) -> Option<usize>
    ensures { result ≡ position is_blank text.now }
{
    text.iter().position(|byte| is_blank_byte(*byte))
}

// The first word, and what follows it.
fn next_word(text: &[u8]) -> Option<(&[u8], &[u8])>
    ensures words { MatchOption result (input_words text.now ≡ []) (λ next. input_words text.now ≡ next.0.now ∷ input_words next.1.now) }
    ensures shorter { IfSome result (λ next. length next.1.now < length text.now) }
{
    let (_, rest) = text.split_at(first_word(text)?);
    let len = first_blank(rest).unwrap_or(rest.len());
    Some(rest.split_at(len))
}

fn count_words(text: &[u8]) -> usize
    ensures { result ≡ length (input_words text.now) }
{
    let mut count = 0;
    let mut rest = text;
    'words: while let Some((_, more)) = next_word(rest) {
        count += 1;
        rest = more;
    }
    count
}

// The number that one or more digits write, where it lies in 64 bits without a sign.
fn magnitude(digits: &[u8]) -> Option<u64>
    ensures { result ≡ magnitude_of digits.now }
{
    if digits.is_empty() {
        return None;
    }
    value_upto(u64::MAX, digits)
}

fn number(word: &[u8]) -> Option<i64>
    ensures { result ≡ number_written word.now }
{
    match word {
        [b'-', digits @ ..] => 0i64.checked_sub_unsigned(magnitude(digits)?),
        _ => 0i64.checked_add_unsigned(magnitude(word)?),
    }
}

fn read_words(alloc: Global, text: &[u8], count: usize) -> Result<Row<i64>, InputFail>
    requires { length (input_words text.now) ≤ INPUT_WORDS }
    ensures { AnswersInput result (numbers_at 1 (input_words text.now)) }
{
    let mut numbers = Row::with_capacity(alloc, count)?;
    let mut rest = text;
    let mut place = 1;
    'words: while let Some((word, more)) = next_word(rest) {
        let Some(value) = number(word) else {
            return Err(InputFail::Refused { word: place });
        };
        numbers.push(value)?;
        rest = more;
        place += 1;
    }
    Ok(numbers)
}

/// The numbers of an input text.
///
/// Words are the longest runs of bytes other than space, tab, CR and LF. Each has to be an optional `-` and one or more
/// digits, with a value of 64 bits; leading zeros are allowed.
pub fn read_input(alloc: Global, bytes: &[u8]) -> Result<Row<i64>, InputFail>
    ensures { AnswersInput result (numbers_of bytes.now) }
{
    let count = count_words(bytes);
    if count > INPUT_WORDS as usize {
        return Err(InputFail::TooMany {
            count: count.min(COUNTED as usize) as u32,
        });
    }
    read_words(alloc, bytes, count)
}
