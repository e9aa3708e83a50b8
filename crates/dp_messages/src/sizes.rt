//! Where a program grows too large with its calls expanded: fronts of it are read as programs of their own.
ghost use Rattle.std.specs.Prelude.{◌≤◌, length};
ghost use Rattle.dp_base.specs.declared.limits.TheConstants.{PROGRAM_BYTES};

use crate::source::{Spot, piece};
use crate::tokens::Placed;
use dp_base::limits::PROGRAM_BYTES;
use dp_base::{NoMemory, Quantity, Row};
use dp_load::read_program;
use dp_refusal::Refusal;
use std::alloc::Global;

/// How many ends of statements are tried to be taken at once, one after the other.
const STRIDES: [usize; 16] = [
    32_768, 16_384, 8_192, 4_096, 2_048, 1_024, 512, 256, 128, 64, 32, 16, 8, 4, 2, 1,
];

/// The mark of the first marked loop with too many sites.
pub fn passing_region(
    alloc: Global,
    text: &[u8],
    tokens: &[Placed<'_>],
) -> Result<Option<Spot>, NoMemory> {
    for (at, placed) in tokens.iter().enumerate() {
        let marks = placed.token.text.first() == Some(&b'#');
        if marks && is_too_large(alloc, text, end_of_block(tokens, at))? {
            return Ok(Some(placed.spot()));
        }
    }
    Ok(None)
}

/// The first token of the statement of `main` with which the program is too large.
pub fn passing_statement(
    alloc: Global,
    text: &[u8],
    tokens: &[Placed<'_>],
) -> Result<Option<Spot>, NoMemory> {
    let ends = ends_in_main(alloc, tokens)?;
    let mut taken: usize = 0;
    for stride in &STRIDES {
        let tried = taken.saturating_add(*stride);
        if let Some(end) = ends.get(tried) {
            if !is_too_large(alloc, text, *end)? {
                taken = tried;
            }
        }
    }
    match ends.get(taken) {
        Some(end) => Ok(first_behind(tokens, *end)),
        None => Ok(None),
    }
}

/// The first token behind a place.
fn first_behind(tokens: &[Placed<'_>], end: usize) -> Option<Spot> {
    for placed in tokens {
        if placed.place >= end {
            return Some(placed.spot());
        }
    }
    None
}

/// Whether the text up to here, with a brace behind it, is a program that is too large with its calls expanded.
fn is_too_large(alloc: Global, text: &[u8], end: usize) -> Result<bool, NoMemory> {
    let mut front = Row::from_slice(alloc, piece(text, 0, end))?;
    front.extend_from_slice(b"\n}")?;
    if front.len() > PROGRAM_BYTES as usize {
        return Ok(true);
    }
    match read_program(alloc, front.as_slice())? {
        Err(Refusal::Limit(Quantity::InlinedSize, _)) => Ok(true),
        Err(Refusal::Limit(Quantity::RegionSites, _)) => Ok(true),
        _ => Ok(false),
    }
}

/// The place behind the block that follows a token of the list.
fn end_of_block(tokens: &[Placed<'_>], at: usize) -> usize {
    let mut open: usize = 0;
    for placed in tokens.iter().skip(at) {
        match placed.token.text {
            b"{" => open = open.saturating_add(1),
            b"}" if open <= 1 => return placed.place.saturating_add(1),
            b"}" => open -= 1,
            _ => {}
        }
    }
    0
}

/// The places behind the brace that opens `main`, and behind each of its statements.
fn ends_in_main(alloc: Global, tokens: &[Placed<'_>]) -> Result<Row<usize>, NoMemory> {
    let mut ends = Row::new(alloc);
    let mut main = false;
    let mut braces: usize = 0;
    let mut parens: usize = 0;
    for placed in tokens {
        let text = placed.token.text;
        match text {
            b"main" => main = true,
            b"{" => braces = braces.saturating_add(1),
            b"}" => braces = braces.saturating_sub(1),
            b"(" => parens = parens.saturating_add(1),
            b")" => parens = parens.saturating_sub(1),
            _ => {}
        }
        let ends_here = matches!(text, b"{" | b"}" | b";") && parens == 0;
        let opens = matches!(text, b"{") && !ends.is_empty();
        if main && braces == 1 && ends_here && !opens {
            ends.push(placed.place.saturating_add(1))?;
        }
    }
    Ok(ends)
}
