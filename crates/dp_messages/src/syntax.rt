//! A program that the grammar doesn't derive: the token that can't stand, what could, and what is often meant.
ghost use Rattle.std.specs.Prelude.{◌≤◌, length};
ghost use Rattle.dp_base.specs.declared.limits.TheConstants.{PROGRAM_BYTES};

use crate::advice::Around;
use crate::expected::{expected, has, put_expected};
use crate::page::Page;
use crate::source::{Source, Spot, line_at, piece, put_head, put_spot};
use crate::tokens::{Placed, placed_tokens, text_at, text_before, text_behind};
use dp_base::NoMemory;
use std::alloc::Global;

/// Tells of the token with this number, from 0, up to which no program begins so, or of the end of the text.
pub fn tell_syntax(
    alloc: Global,
    page: &mut Page,
    source: Source<'_>,
    token: u32,
) -> Result<(), NoMemory>
    requires { length source.text.now ≤ PROGRAM_BYTES }
{
    let tokens = placed_tokens(alloc, source.text)?;
    let tokens = tokens.as_slice();
    let at = token as usize;
    let front = match tokens.get(at) {
        Some(found) => piece(source.text, 0, found.place),
        None => source.text,
    };
    let could = expected(alloc, front, at)?;
    let could = could.as_slice();
    let spot = spot_of(source, tokens, at, could);
    put_head(page, source, spot, "error");
    page.put("expected ");
    put_expected(alloc, page, could)?;
    put_found(page, source, tokens, at, spot);
    put_spot(page, source, spot, "");
    if spot.from == front.len() {
        put_advice(page, tokens, at, could);
    }
    Ok(())
}

/// Where something else is expected: at the token, or right behind the one before it where it stands on a later line and
/// something could close there.
fn spot_of(source: Source<'_>, tokens: &[Placed<'_>], at: usize, could: &[&str]) -> Spot {
    let behind = behind_token(source, tokens, at);
    match tokens.get(at) {
        None => behind,
        Some(found) => {
            let closes = has(could, ";") || has(could, ")") || has(could, "]");
            let later = line_at(source.text, behind.from).end < found.place;
            if closes && later {
                behind
            } else {
                found.spot()
            }
        }
    }
}

/// The place right behind the token in front of this one.
fn behind_token(source: Source<'_>, tokens: &[Placed<'_>], at: usize) -> Spot {
    let before = match at.checked_sub(1) {
        Some(before) => tokens.get(before),
        None => None,
    };
    let from = match before {
        Some(last) => last.place.saturating_add(last.token.text.len()),
        None => source.text.len(),
    };
    Spot { from, len: 1 }
}

/// Puts what stands there instead, with its line where that is a later one.
fn put_found(page: &mut Page, source: Source<'_>, tokens: &[Placed<'_>], at: usize, spot: Spot) {
    match tokens.get(at) {
        None => page.put(", and the text ends here"),
        Some(found) => {
            page.put(", found ");
            page.quote(found.token.text);
            if found.place != spot.from {
                page.put(" on line ");
                page.put_number(line_at(source.text, found.place).number);
            }
        }
    }
    page.put("\n");
}

/// Puts what is often meant by the token, or by what stands before it.
fn put_advice(page: &mut Page, tokens: &[Placed<'_>], at: usize, could: &[&str]) {
    let around = Around {
        first: text_before(tokens, at, 2),
        before: text_before(tokens, at, 1),
        found: text_at(tokens, at),
        behind: text_behind(tokens, at, 1),
    };
    let advice = around.advice(could);
    if !advice.is_empty() {
        page.hint(advice);
    }
}
