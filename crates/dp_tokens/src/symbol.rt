//! The terminal symbols of the grammar.

ghost use Rattle.std.specs.Prelude.{◌≡◌, ◌≢◌, true, false, map};
ghost use Rattle.dp_lex.specs.Tokens.{lexeme};
ghost use Rattle.dp_tokens.specs.Symbols as spec;
ghost use Rattle.dp_tokens.specs.Steps as steps;

use dp_lex::{Token, TokenKind, spelling};

/// A terminal symbol: what a token is to the grammar.
#[derive(Clone, Copy)]
pub enum Symbol {
    Name,
    Number,
    Mark,
    Int,
    Void,
    Main,
    Return,
    Print,
    While,
    For,
    Break,
    If,
    Else,
    Plus,
    Minus,
    Star,
    Slash,
    Percent,
    Not,
    Less,
    LessEqual,
    Greater,
    GreaterEqual,
    Equal,
    NotEqual,
    And,
    Or,
    Assign,
    OpenParen,
    CloseParen,
    OpenBracket,
    CloseBracket,
    OpenBrace,
    CloseBrace,
    Comma,
    Semicolon,
    /// A word or a sign that no rule uses.
    Other,
    /// No token is left.
    End,
}

const WORDS: [(&[u8], Symbol); 10] = [
    (spelling::INT, Symbol::Int),
    (spelling::VOID, Symbol::Void),
    (spelling::MAIN, Symbol::Main),
    (spelling::RETURN, Symbol::Return),
    (spelling::PRINT, Symbol::Print),
    (spelling::WHILE, Symbol::While),
    (spelling::FOR, Symbol::For),
    (spelling::BREAK, Symbol::Break),
    (spelling::IF, Symbol::If),
    (spelling::ELSE, Symbol::Else),
];

const SIGNS: [(&[u8], Symbol); 23] = [
    (spelling::PLUS, Symbol::Plus),
    (spelling::MINUS, Symbol::Minus),
    (spelling::STAR, Symbol::Star),
    (spelling::SLASH, Symbol::Slash),
    (spelling::PERCENT, Symbol::Percent),
    (spelling::NOT, Symbol::Not),
    (spelling::LESS, Symbol::Less),
    (spelling::LESS_EQUAL, Symbol::LessEqual),
    (spelling::GREATER, Symbol::Greater),
    (spelling::GREATER_EQUAL, Symbol::GreaterEqual),
    (spelling::EQUAL, Symbol::Equal),
    (spelling::NOT_EQUAL, Symbol::NotEqual),
    (spelling::AND, Symbol::And),
    (spelling::OR, Symbol::Or),
    (spelling::ASSIGN, Symbol::Assign),
    (spelling::OPEN_PAREN, Symbol::OpenParen),
    (spelling::CLOSE_PAREN, Symbol::CloseParen),
    (spelling::OPEN_BRACKET, Symbol::OpenBracket),
    (spelling::CLOSE_BRACKET, Symbol::CloseBracket),
    (spelling::OPEN_BRACE, Symbol::OpenBrace),
    (spelling::CLOSE_BRACE, Symbol::CloseBrace),
    (spelling::COMMA, Symbol::Comma),
    (spelling::SEMICOLON, Symbol::Semicolon),
];

fn spelled(mut table: &[(&[u8], Symbol)], text: &[u8]) -> Symbol
    ensures { result ≡ spec.spelled (map (λ entry. (entry.0.now, entry.1)) table.entry.now) text.now }
{
    while let [entry, rest @ ..] = table {
        if entry.0 == text {
            return entry.1;
        }
        table = rest;
    }
    Symbol::Other
}

/// The symbol that a token is.
#[tactic(auto, unfolding(crate::specs::Symbols::symbol))]
pub fn symbol_of(token: &Token<'_>) -> Symbol
    ensures { result ≡ spec.symbol (lexeme token.now) }
{
    match token.kind {
        TokenKind::Name => Symbol::Name,
        TokenKind::Number => Symbol::Number,
        TokenKind::Mark => Symbol::Mark,
        TokenKind::Reserved => spelled(&WORDS, token.text),
        TokenKind::Sign => spelled(&SIGNS, token.text),
    }
}

/// The symbol that the first token is.
#[tactic(auto, unfolding(crate::specs::Symbols::symbol_at))]
pub fn symbol_at(tokens: &[Token<'_>]) -> Symbol
    ensures { result ≡ spec.symbol_at (map lexeme tokens.now) }
{
    match tokens {
        [] => Symbol::End,
        [first, ..] => symbol_of(first),
    }
}

pub fn same_symbol(a: Symbol, b: Symbol) -> bool
    ensures value { result ≡ steps.same_symbol a b }
    ensures same { result ≡ true → a ≡ b }
    ensures other { result ≡ false → a ≢ b }
{
    a == b
}
