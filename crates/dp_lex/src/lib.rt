//! The tokens of a program's text.
#![tactic(auto)]

mod front;
mod law;
mod lexer;
pub mod spelling;
mod tables;

pub use law::{a_last_answer_is_given_again, each_text_is_read_in_one_way};
pub use lexer::Lexer;

/// What a token is: an identifier, a reserved word, a number, the mark of a region, or a sign.
#[derive(Clone, Copy)]
pub enum TokenKind {
    Name,
    Reserved,
    Number,
    Mark,
    Sign,
}

/// A token: the source's own slice, with the line on which it begins, from 1.
#[derive(Clone, Copy)]
pub struct Token<'t> {
    pub kind: TokenKind,
    pub text: &'t [u8],
    pub line: u32,
}

/// No token begins at this place of the text, counted in bytes from 0.
#[derive(Clone, Copy)]
pub struct LexRefused {
    pub place: u32,
}
