//! A whole text.

ghost use Rattle.std.specs.Prelude.{◌≡◌, ◌≤◌, ◌<◌, ◌^◌, length, map, MatchResult};
ghost use Rattle.dp_base.specs.declared.limits.TheConstants.{PROGRAM_BYTES};
ghost use Rattle.dp_lex.specs.Tokens.{Tokens as AreTokens, lexeme};
ghost use Rattle.dp_parse.specs.Parses.{Parses, Unread, Gives, outcome_of};

use crate::depth::depth_fault;
use crate::fail::ParseFail;
use crate::item::program;
use dp_base::Row;
use dp_lex::{Lexer, Token};
use dp_tokens::{PartFail, Tokens};
use dp_tree::RawProgram;
use std::alloc::Global;

/// The program that a text is. The grammar is C99's for the subset that the language has.
///
/// A text that nests deeper than the limits is refused before its grammar is looked at, so the descent's own depth is
/// bounded by them.
pub fn parse(alloc: Global, text: &[u8]) -> Result<RawProgram, ParseFail>
    requires { length text.now ≤ PROGRAM_BYTES }
    ensures { Parses text.now result }
{
    match read_tokens(alloc, text) {
        Ok(tokens) => derive(alloc, tokens.as_slice()),
        Err(fail) => Err(fail),
    }
}

/// The tokens of the whole text, in order.
fn read_tokens<'t>(alloc: Global, text: &'t [u8]) -> Result<Row<Token<'t>>, ParseFail>
    requires { length text.now ≤ PROGRAM_BYTES }
    ensures { MatchResult result (λ tokens. AreTokens text.now (map lexeme tokens)) (Unread text.now) }
{
    let mut lexer = Lexer::new(text);
    let mut tokens = Row::new(alloc);
    loop {
        match lexer.next() {
            Ok(Some(token)) => tokens.push(token)?,
            Ok(None) => return Ok(tokens),
            Err(refused) => {
                return Err(ParseFail::Lex {
                    place: refused.place,
                });
            }
        }
    }
}

/// The program that the tokens derive.
fn derive(alloc: Global, tokens: &[Token<'_>]) -> Result<RawProgram, ParseFail>
    requires { length tokens.now < 2 ^ 32 }
    ensures { Gives (map lexeme tokens.now) result }
{
    if let Some((quantity, count)) = depth_fault(tokens) {
        return Err(ParseFail::TooDeep { quantity, count });
    }
    let mut cursor = Tokens::new(tokens);
    let found = program(alloc, &mut cursor);
    outcome(found, tokens.len(), cursor.len())
}

/// The answer for a whole text of so many tokens, of which some are left.
fn outcome(
    found: Result<RawProgram, PartFail>,
    tokens: usize,
    left: usize,
) -> Result<RawProgram, ParseFail>
    requires { tokens < 2 ^ 32 }
    ensures { result ≡ outcome_of tokens left found }
{
    match found {
        Ok(program) => Ok(program),
        Err(PartFail::Refused) => Err(ParseFail::Refused {
            token: tokens.saturating_sub(left) as u32,
        }),
        Err(PartFail::NoMemory) => Err(ParseFail::NoMemory),
    }
}
