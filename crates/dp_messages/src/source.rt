//! A text that messages point into, and the lines that they show of it.
use crate::page::Page;

/// A text with the name of its file.
#[derive(Clone, Copy)]
pub struct Source<'t> {
    pub name: &'t str,
    pub text: &'t [u8],
}

/// A piece of a text: where it begins, and how many bytes it has.
#[derive(Clone, Copy)]
pub struct Spot {
    pub from: usize,
    pub len: usize,
}

/// A line of a text: its number, from 1, and where it begins and ends.
#[derive(Clone, Copy)]
pub struct Line {
    pub number: u64,
    pub from: usize,
    pub end: usize,
}

/// At most so many bytes of a line are shown, half of them in front of what is pointed at.
const SHOWN: usize = 100;

const IN_FRONT: usize = 50;

/// The width of a line's number.
const GUTTER: usize = 5;

/// The line in which a place of the text stands.
pub fn line_at(text: &[u8], place: usize) -> Line {
    let mut number: u64 = 1;
    let mut from = 0;
    for (at, byte) in text.iter().enumerate() {
        if *byte == b'\n' {
            if at >= place {
                return Line {
                    number,
                    from,
                    end: at,
                };
            }
            number = number.saturating_add(1);
            from = at.saturating_add(1);
        }
    }
    Line {
        number,
        from,
        end: text.len(),
    }
}

/// The line with this number, from 1, or the last one where there are fewer.
pub fn numbered_line(text: &[u8], number: u64) -> Line {
    let mut left = number;
    for (at, byte) in text.iter().enumerate() {
        if left <= 1 {
            return line_at(text, at);
        }
        if *byte == b'\n' {
            left -= 1;
        }
    }
    line_at(text, text.len())
}

/// What stands on a line, without the blanks around it.
pub fn written_on(text: &[u8], line: Line) -> Spot {
    let whole = piece(text, line.from, line.end);
    let rest = whole.trim_ascii_start();
    let written = rest.trim_ascii_end();
    Spot {
        from: line
            .from
            .saturating_add(whole.len().saturating_sub(rest.len())),
        len: written.len(),
    }
}

/// A piece of a text, as far as it has one there.
pub fn piece(text: &[u8], from: usize, end: usize) -> &[u8] {
    text.get(from..end).unwrap_or(&[])
}

/// Puts where a spot is, and what sort of message follows: `FILE:LINE:COLUMN: SORT: `.
pub fn put_head(page: &mut Page, source: Source<'_>, spot: Spot, sort: &str) {
    let line = line_at(source.text, spot.from);
    let before = piece(source.text, line.from, spot.from);
    page.put(source.name);
    page.put(":");
    page.put_number(line.number);
    page.put(":");
    page.put_number((letters(before) as u64).saturating_add(1));
    page.put(": ");
    page.put(sort);
    page.put(": ");
}

/// Puts the spot's line, and marks the spot below it.
pub fn put_lines(page: &mut Page, source: Source<'_>, spot: Spot) {
    let line = line_at(source.text, spot.from);
    let from = line.from.max(spot.from.saturating_sub(IN_FRONT));
    let end = line.end.min(from.saturating_add(SHOWN));
    let shown = piece(source.text, from, end);
    let as_text = str::from_utf8(shown).is_ok();
    let cut = if from > line.from { ".." } else { "" };
    put_gutter(page, line.number);
    page.put(cut);
    for byte in shown {
        put_shown(page, *byte, as_text);
    }
    if end < line.end {
        page.put("..");
    }
    page.put("\n      | ");
    for _ in cut.as_bytes() {
        page.put(" ");
    }
    put_marks(page, shown, spot.from.saturating_sub(from), spot.len);
}

/// Puts the spot's line with its mark, and what is to say of it.
pub fn put_spot(page: &mut Page, source: Source<'_>, spot: Spot, said: &str) {
    put_lines(page, source, spot);
    if !said.is_empty() {
        page.put(" ");
        page.put(said);
    }
    page.put("\n");
}

/// How many letters the bytes are, where those behind the first byte of a letter don't count.
fn letters(bytes: &[u8]) -> usize {
    bytes.iter().filter(|byte| begins_letter(**byte)).count()
}

fn begins_letter(byte: u8) -> bool {
    byte < 128 || byte >= 192
}

fn put_gutter(page: &mut Page, number: u64) {
    let mut digits = itoa::Buffer::new();
    let digits = digits.format(number);
    for _ in digits.len()..GUTTER {
        page.put(" ");
    }
    page.put(digits);
    page.put(" | ");
}

/// Puts a byte of a line, or a mark in the place of one that a terminal can't show.
fn put_shown(page: &mut Page, byte: u8, as_text: bool) {
    let plain = byte == b'\t' || (byte >= b' ' && byte != 127 && (byte < 128 || as_text));
    page.put_bytes(&[if plain { byte } else { b'?' }]);
}

/// Puts carets below `len` bytes behind the first `from` of those that are shown.
fn put_marks(page: &mut Page, shown: &[u8], from: usize, len: usize) {
    for byte in shown.iter().take(from) {
        if *byte == b'\t' {
            page.put("\t");
        } else if begins_letter(*byte) {
            page.put(" ");
        }
    }
    page.put("^");
    for byte in shown
        .iter()
        .skip(from.saturating_add(1))
        .take(len.saturating_sub(1))
    {
        if begins_letter(*byte) {
            page.put("^");
        }
    }
}
