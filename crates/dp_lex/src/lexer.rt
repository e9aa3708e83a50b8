//! The tokens of a text, one after another.

ghost use Rattle.std.specs.Prelude.{◌≡◌, ◌≤◌, [], length, drop};
ghost use Rattle.dp_base.specs.declared.limits.TheConstants.{PROGRAM_BYTES};
ghost use Rattle.dp_lex.specs.Characters.{line_ends};
ghost use Rattle.dp_lex.specs.Tokens.{ReadsTokens, IsNextToken};
ghost use Rattle.dp_lex.specs.Scan as spec;

use crate::front::{front, skipped};
use crate::{LexRefused, Token};
use std::marker::Model;

/// Reads a text from its front. Contracts see the text and the place that was reached.
#[derive(Drop)]
pub struct Lexer<'t> {
    text: &'t [u8],
    place: usize,
    line: u32,
}

impl<'t> Model for Lexer<'t> {
    ghost use Rattle.dp_lex.specs.Tokens.{Reading, IsInText};

    ghost Value = { Reading };

    ghost view = { λ lexer. record { text = lexer.text.now; place = lexer.place } };

    ghost invariant = { λ lexer. IsInText lexer.text.now lexer.place lexer.line };
}

impl<'t> Lexer<'t> {
    pub fn new(text: &'t [u8]) -> Lexer<'t>
        requires { length text.now ≤ PROGRAM_BYTES }
        ensures text { result.text ≡ text.now }
        ensures place { result.place ≡ 0 }
    {
        Lexer {
            text,
            place: 0,
            line: 1,
        }
    }

    /// The next token, or `None` at the end. After `None` or a refusal each later call answers the same.
    pub fn next(&mut self) -> Result<Option<Token<'t>>, LexRefused>
        ensures text { self.new.text ≡ self.old.text }
        ensures next { IsNextToken self.old result self.new }
    {
        self.skip();
        let rest = &self.text[self.place..];
        if rest.is_empty() {
            return Ok(None);
        }
        let Some((kind, len)) = front(rest) else {
            return Err(LexRefused {
                place: self.place as u32,
            });
        };
        let token = Token {
            kind,
            text: &rest[..len],
            line: self.line,
        };
        self.place += len;
        Ok(Some(token))
    }

    /// The place behind the last token, counted in bytes.
    pub fn place(&self) -> usize
        ensures value { result ≡ self.now.place }
        ensures within { result ≤ length self.now.text }
    {
        self.place
    }

    /// Goes past white space and comments.
    fn skip(&mut self)
        ensures text { self.new.text ≡ self.old.text }
        ensures reads { ReadsTokens self.old.text self.old.place [] self.new.place }
        ensures done { spec.skipped (drop self.new.place self.old.text) ≡ 0 }
    {
        loop {
            let rest = &self.text[self.place..];
            let n = skipped(rest);
            if n == 0 {
                return;
            }
            self.line += line_ends(&rest[..n]);
            self.place += n;
        }
    }
}

fn line_ends(z: &[u8]) -> u32
    requires { length z.now ≤ PROGRAM_BYTES }
    ensures value { result ≡ line_ends z.now }
    ensures within { result ≤ length z.now }
{
    z.iter().filter(|b| **b == b'\n').count() as u32
}
