//! The tokens of a program's text, with their places.
ghost use Rattle.std.specs.Prelude.{◌≤◌, length};
ghost use Rattle.dp_base.specs.declared.limits.TheConstants.{PROGRAM_BYTES};

use crate::source::Spot;
use dp_base::{NoMemory, Row};
use dp_lex::{Lexer, Token};
use std::alloc::Global;

/// A token, and where it begins.
#[derive(Clone, Copy)]
pub struct Placed<'t> {
    pub token: Token<'t>,
    pub place: usize,
}

impl<'t> Placed<'t> {
    pub fn spot(self) -> Spot {
        Spot {
            from: self.place,
            len: self.token.text.len(),
        }
    }
}

/// The tokens of the text, up to its end or to where none begins.
pub fn placed_tokens<'t>(alloc: Global, text: &'t [u8]) -> Result<Row<Placed<'t>>, NoMemory>
    requires { length text.now ≤ PROGRAM_BYTES }
{
    let mut lexer = Lexer::new(text);
    let mut tokens = Row::new(alloc);
    for _ in 0..text.len() {
        let Ok(Some(token)) = lexer.next() else {
            return Ok(tokens);
        };
        let place = lexer.place().saturating_sub(token.text.len());
        tokens.push(Placed { token, place })?;
    }
    Ok(tokens)
}

/// The text of the token at a place of the list, or nothing.
pub fn text_at<'t>(tokens: &[Placed<'t>], at: usize) -> &'t [u8] {
    match tokens.get(at) {
        Some(placed) => placed.token.text,
        None => &[],
    }
}

/// The text of the token that stands `back` places before one of the list, or nothing.
pub fn text_before<'t>(tokens: &[Placed<'t>], at: usize, back: usize) -> &'t [u8] {
    match at.checked_sub(back) {
        Some(before) => text_at(tokens, before),
        None => &[],
    }
}

/// The text of the token that stands `ahead` places behind one of the list, or nothing.
pub fn text_behind<'t>(tokens: &[Placed<'t>], at: usize, ahead: usize) -> &'t [u8] {
    text_at(tokens, at.saturating_add(ahead))
}
