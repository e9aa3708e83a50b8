//! A cursor over the tokens of a text.

ghost use Rattle.std.specs.Prelude.{◌≡◌, ◌≢◌, map, length, IfOk, OnErr, Ok as Taken, Err as Stuck};
ghost use Rattle.dp_lex.specs.Tokens.{lexeme};
ghost use Rattle.dp_tokens.specs.declared.fail.PartFail.TheVariants as fail;
ghost use Rattle.dp_tokens.specs.declared.symbol.Symbol.TheVariants.{Semicolon};
ghost use Rattle.dp_tokens.specs.Symbols as spec;
ghost use Rattle.dp_tokens.specs.Steps as steps;
ghost use Rattle.dp_tokens.specs.Numbers as numbers;

use crate::fail::PartFail;
use crate::leaf::value;
use crate::symbol::{Symbol, same_symbol, symbol_at};
use dp_lex::Token;
use std::marker::Model;

/// The tokens that are left. Contracts see their list.
#[derive(Drop)]
pub struct Tokens<'a, 't> {
    left: &'a [Token<'t>],
    /// The symbol that the first of them is.
    next: Symbol,
}

impl<'a, 't> Model for Tokens<'a, 't> {
    ghost use Rattle.std.specs.Prelude.{List};
    ghost use Rattle.dp_lex.specs.Token.{Lexeme};
    ghost use Rattle.dp_tokens.specs.Cursor.{lexemes_code, tokens_left, KnowsNext};

    ghost Value = { List Lexeme };

    ghost coded = { lexemes_code };

    ghost view = { tokens_left };

    ghost invariant = { KnowsNext };
}

impl<'a, 't> Tokens<'a, 't> {
    pub fn new(tokens: &'a [Token<'t>]) -> Tokens<'a, 't>
        ensures { result ≡ map lexeme tokens.now }
    {
        Tokens {
            left: tokens,
            next: symbol_at(tokens),
        }
    }

    pub fn len(&self) -> usize
        ensures { result ≡ length self.now }
    {
        self.left.len()
    }

    /// The symbol that comes next.
    pub fn peek(&self) -> Symbol
        ensures { result ≡ spec.symbol_at self.now }
    {
        self.next
    }

    /// The number that comes next, if one does.
    #[tactic(auto, unfolding(crate::specs::Numbers::number_in_front, crate::specs::Symbols::symbol_at))]
    pub fn next_number(&self) -> Option<i64>
        ensures { result ≡ numbers.number_in_front self.now }
    {
        match self.left {
            [first, ..] => number_of(same_symbol(self.next, Symbol::Number), first.text),
            [] => None,
        }
    }

    #[tactic(auto, unfolding(crate::specs::Steps::sees_symbol))]
    pub fn sees(&self, symbol: Symbol) -> bool
        ensures { result ≡ steps.sees_symbol symbol self.now }
    {
        same_symbol(self.next, symbol)
    }

    /// Whether the symbol stands behind the next token.
    #[tactic(auto, unfolding(crate::specs::Steps::sees_symbol, crate::specs::Steps::rest, crate::specs::Symbols::symbol_at))]
    pub fn sees_second(&self, symbol: Symbol) -> bool
        ensures { result ≡ steps.sees_symbol symbol (steps.rest self.now) }
    {
        match self.left {
            [_, rest @ ..] => same_symbol(symbol_at(rest), symbol),
            [] => same_symbol(Symbol::End, symbol),
        }
    }

    /// Passes the next token, if there is one.
    #[tactic(auto, unfolding(crate::specs::Steps::rest))]
    pub fn advance(&mut self)
        ensures { self.new ≡ steps.rest self.old }
    {
        if let [_, rest @ ..] = self.left {
            self.left = rest;
            self.next = symbol_at(rest);
        }
    }

    /// Passes the next token where it is the symbol, and tells whether it is.
    #[tactic(auto, unfolding(crate::specs::Steps::after))]
    pub fn eat(&mut self, symbol: Symbol) -> bool
        ensures found { result ≡ steps.sees_symbol symbol self.old }
        ensures after { self.new ≡ steps.after symbol self.old }
    {
        let found = self.sees(symbol);
        if found {
            self.advance();
        }
        found
    }

    /// Takes the next token, which has to be the symbol.
    #[tactic(auto, unfolding(crate::specs::Steps::expect, crate::specs::Symbols::symbol_at))]
    pub fn expect(&mut self, symbol: Symbol) -> Result<Token<'t>, PartFail>
        ensures taken { IfOk result (λ t. steps.expect symbol self.old ≡ Taken (lexeme t, self.new)) }
        ensures refused { OnErr result (steps.expect symbol self.old ≡ Stuck self.new) }
        ensures decides { result ≢ Stuck fail.NoMemory }
    {
        match self.left {
            [first, rest @ ..] => {
                if !same_symbol(self.next, symbol) {
                    return Err(PartFail::Refused);
                }
                let token = *first;
                self.left = rest;
                self.next = symbol_at(rest);
                Ok(token)
            }
            [] => Err(PartFail::Refused),
        }
    }

    /// Takes the `;` at the end of a statement.
    pub fn semicolon(&mut self) -> Result<Token<'t>, PartFail>
        ensures taken { IfOk result (λ t. steps.expect Semicolon self.old ≡ Taken (lexeme t, self.new)) }
        ensures refused { OnErr result (steps.expect Semicolon self.old ≡ Stuck self.new) }
        ensures decides { result ≢ Stuck fail.NoMemory }
    {
        self.expect(Symbol::Semicolon)
    }
}

/// The value of a token's text, if it is a number's.
fn number_of(is_number: bool, text: &[u8]) -> Option<i64>
    ensures { result ≡ numbers.value_by is_number text.now }
{
    if is_number { value(text) } else { None }
}
