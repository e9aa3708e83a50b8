//! What a run's text says of its end and of the iterations that were executed again.
use crate::source::piece;

/// How a run ended, by the last line of its text.
#[derive(Clone, Copy)]
pub enum LastLine<'t> {
    /// In a fault of this kind, on this line of the program.
    Fault(&'t [u8], u64),
    Fuel,
    /// A text differs from a log, from this line on.
    Differs(u64),
    Other,
}

/// The last line of a text.
pub fn last_line(text: &[u8]) -> LastLine<'_> {
    let end = text.len().saturating_sub(1);
    let mut from = 0;
    for (at, byte) in text.iter().enumerate() {
        if *byte == b'\n' && at < end {
            from = at.saturating_add(1);
        }
    }
    let line = piece(text, from, end);
    match (word_at(line, 0), word_at(line, 1)) {
        (b"end", b"fault") => LastLine::Fault(word_at(line, 2), number_at(line, 4)),
        (b"end", b"fuel") => LastLine::Fuel,
        (b"audit", b"differs") => LastLine::Differs(number_at(line, 3)),
        _ => LastLine::Other,
    }
}

/// How many iterations of the region that the line is on were executed again: none where it is the line of no region.
pub fn again_on(line: &[u8]) -> u64 {
    match (word_at(line, 0), word_at(line, 2)) {
        (b"region", b"iterations") => number_at(line, 5),
        _ => 0,
    }
}

/// A word of a line, from 0, or nothing.
pub fn word_at(line: &[u8], number: usize) -> &[u8] {
    let mut left = number;
    let mut from = 0;
    for (at, byte) in line.iter().enumerate() {
        if *byte == b' ' {
            if left == 0 {
                return piece(line, from, at);
            }
            left -= 1;
            from = at.saturating_add(1);
        }
    }
    if left == 0 {
        piece(line, from, line.len())
    } else {
        &[]
    }
}

/// The number that a word of a line writes, also in front of a colon, or 0.
pub fn number_at(line: &[u8], number: usize) -> u64 {
    let mut value: u64 = 0;
    for digit in word_at(line, number) {
        if digit.is_ascii_digit() {
            let more = u64::from(digit.saturating_sub(b'0'));
            value = value.saturating_mul(10).saturating_add(more);
        }
    }
    value
}
