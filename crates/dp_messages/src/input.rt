//! A word of an input that is no number, and the first word of an input with too many.
use crate::limits::tell_spot;
use crate::page::Page;
use crate::source::{Source, Spot, piece, put_head, put_spot};
use dp_base::Quantity;
use dp_base::limits::INPUT_WORDS;

/// Tells of the word with this number, from 1.
pub fn tell_word(page: &mut Page, source: Source<'_>, number: u32) {
    let spot = word_spot(source.text, u64::from(number));
    let word = piece(source.text, spot.from, spot.from.saturating_add(spot.len));
    put_head(page, source, spot, "error");
    page.put("word ");
    page.put_number(u64::from(number));
    page.put(" is no number of 64 bits\n");
    put_spot(page, source, spot, "");
    page.hint(advice_on(word));
}

/// Tells of an input with so many words.
pub fn tell_many(page: &mut Page, source: Source<'_>, count: u32) {
    let spot = word_spot(source.text, u64::from(INPUT_WORDS).saturating_add(1));
    tell_spot(page, source, spot, Quantity::InputWords, count);
}

fn advice_on(word: &[u8]) -> &'static str {
    let digits = match word.first() {
        Some(b'-') => word.get(1..).unwrap_or(&[]),
        _ => word,
    };
    if !digits.is_empty() && digits.iter().all(|byte| byte.is_ascii_digit()) {
        "numbers are from -9223372036854775808 to 9223372036854775807"
    } else if word.iter().any(|byte| *byte == b',' || *byte == b';') {
        "blanks and line ends alone stand between numbers"
    } else {
        "a number is an optional `-` and decimal digits"
    }
}

/// The word with this number, from 1, or the end of the text.
fn word_spot(text: &[u8], number: u64) -> Spot {
    let mut left = number;
    let mut inside = false;
    for (at, byte) in text.iter().enumerate() {
        let blank = is_blank(*byte);
        if !blank && !inside {
            left = left.saturating_sub(1);
            if left == 0 {
                let rest = piece(text, at, text.len());
                let len = rest.iter().take_while(|byte| !is_blank(**byte)).count();
                return Spot { from: at, len };
            }
        }
        inside = !blank;
    }
    Spot {
        from: text.len(),
        len: 0,
    }
}

fn is_blank(byte: u8) -> bool {
    matches!(byte, b' ' | b'\t' | b'\r' | b'\n')
}

/// How many words an input has.
pub fn count_words(text: &[u8]) -> u64 {
    let mut count: u64 = 0;
    let mut inside = false;
    for byte in text {
        let blank = is_blank(*byte);
        if !blank && !inside {
            count = count.saturating_add(1);
        }
        inside = !blank;
    }
    count
}
