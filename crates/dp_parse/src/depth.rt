//! The counts that bound how deep a program nests.

ghost use Rattle.std.specs.Prelude.{◌≡◌, ◌+◌, ◌<◌, ◌^◌, ◌&&◌, map, length};
ghost use Rattle.dp_lex.specs.Tokens.{lexeme};
ghost use Rattle.dp_parse.specs.Depth as spec;

use dp_base::Quantity;
use dp_base::limits::{ELSE_IF, NESTING, OPERATORS};
use dp_lex::Token;
use dp_tokens::{Symbol, symbol_of};

fn opens(symbol: Symbol) -> bool
    ensures { result ≡ spec.opens symbol }
{
    matches!(symbol, Symbol::OpenBrace)
}

fn closes(symbol: Symbol) -> bool
    ensures { result ≡ spec.closes_brace symbol }
{
    matches!(symbol, Symbol::CloseBrace)
}

fn nesting(tokens: &[Token<'_>]) -> u32
    requires { length tokens.now < 2 ^ 32 }
    ensures { result ≡ spec.nesting (map lexeme tokens.now) }
{
    let mut opened = 0u32;
    let mut closed = 0u32;
    let mut most = 0u32;
    for token in tokens {
        let symbol = symbol_of(token);
        opened += u32::from(opens(symbol));
        closed += u32::from(closes(symbol));
        most = most.max(opened.saturating_sub(closed));
    }
    most
}

fn operates(symbol: Symbol) -> bool
    ensures { result ≡ spec.operates symbol }
{
    matches!(
        symbol,
        Symbol::Plus
            | Symbol::Minus
            | Symbol::Star
            | Symbol::Slash
            | Symbol::Percent
            | Symbol::Not
            | Symbol::Less
            | Symbol::LessEqual
            | Symbol::Greater
            | Symbol::GreaterEqual
            | Symbol::Equal
            | Symbol::NotEqual
            | Symbol::And
            | Symbol::Or
            | Symbol::OpenParen
            | Symbol::OpenBracket
    )
}

fn separates(symbol: Symbol) -> bool
    ensures { result ≡ spec.separates symbol }
{
    matches!(
        symbol,
        Symbol::OpenBrace | Symbol::CloseBrace | Symbol::Semicolon
    )
}

/// How many operators stand since the last separator, after one more symbol.
fn operators_after(here: u32, symbol: Symbol) -> u32
    requires { here + 1 < 2 ^ 32 }
    ensures { result ≡ spec.operators_after here symbol }
{
    if separates(symbol) {
        0
    } else if operates(symbol) {
        here + 1
    } else {
        here
    }
}

fn operators(tokens: &[Token<'_>]) -> u32
    requires { length tokens.now < 2 ^ 32 }
    ensures { result ≡ spec.operators (map lexeme tokens.now) }
{
    let mut here = 0u32;
    let mut most = 0u32;
    for token in tokens {
        here = operators_after(here, symbol_of(token));
        most = most.max(here);
    }
    most
}

fn is_else(symbol: Symbol) -> bool
    ensures { result ≡ spec.is_else symbol }
{
    matches!(symbol, Symbol::Else)
}

fn is_if_after(after_else: bool, symbol: Symbol) -> bool
    ensures { result ≡ (after_else && spec.is_if symbol) }
{
    after_else && matches!(symbol, Symbol::If)
}

fn else_if(tokens: &[Token<'_>]) -> u32
    requires { length tokens.now < 2 ^ 32 }
    ensures { result ≡ spec.else_if (map lexeme tokens.now) }
{
    let mut count = 0u32;
    let mut after_else = false;
    for token in tokens {
        let symbol = symbol_of(token);
        count += u32::from(is_if_after(after_else, symbol));
        after_else = is_else(symbol);
    }
    count
}

/// The first count that is above its number.
#[tactic(auto, unfolding(crate::specs::Depth::depth_fault))]
pub fn depth_fault(tokens: &[Token<'_>]) -> Option<(Quantity, u32)>
    requires { length tokens.now < 2 ^ 32 }
    ensures { result ≡ spec.depth_fault (map lexeme tokens.now) }
{
    let nesting = nesting(tokens);
    if nesting > NESTING {
        return Some((Quantity::Nesting, nesting));
    }
    let operators = operators(tokens);
    if operators > OPERATORS {
        return Some((Quantity::Operators, operators));
    }
    let else_if = else_if(tokens);
    if else_if > ELSE_IF {
        return Some((Quantity::ElseIf, else_if));
    }
    None
}
