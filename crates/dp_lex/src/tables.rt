//! The reserved words and the signs: the names of the program's start and of its output, the keywords of C99, and the signs
//! of the language.

ghost use Rattle.std.specs.Prelude.{◌≡◌, map};
ghost use Rattle.dp_lex.specs.Spelling.{reserved_words, signs};
ghost use Rattle.dp_lex.specs.Scan.{is_one_of};

use crate::spelling::{
    AND, ASSIGN, BREAK, CLOSE_BRACE, CLOSE_BRACKET, CLOSE_PAREN, COMMA, ELSE, EQUAL, FOR, GREATER,
    GREATER_EQUAL, IF, INT, LESS, LESS_EQUAL, MAIN, MINUS, NOT, NOT_EQUAL, OPEN_BRACE,
    OPEN_BRACKET, OPEN_PAREN, OR, PERCENT, PLUS, PRINT, RETURN, SEMICOLON, SLASH, STAR, VOID,
    WHILE,
};

const RESERVED: [&[u8]; 39] = [
    MAIN,
    PRINT,
    b"auto",
    BREAK,
    b"case",
    b"char",
    b"const",
    b"continue",
    b"default",
    b"do",
    b"double",
    ELSE,
    b"enum",
    b"extern",
    b"float",
    FOR,
    b"goto",
    IF,
    b"inline",
    INT,
    b"long",
    b"register",
    b"restrict",
    RETURN,
    b"short",
    b"signed",
    b"sizeof",
    b"static",
    b"struct",
    b"switch",
    b"typedef",
    b"union",
    b"unsigned",
    VOID,
    b"volatile",
    WHILE,
    b"_Bool",
    b"_Complex",
    b"_Imaginary",
];

const SIGNS: [&[u8]; 25] = [
    b"++", b"--", b"+", b"-", b"*", b"/", b"%", b"!", b"<", b"<=", b">", b">=", b"==", b"!=",
    b"&&", b"||", b"=", b"(", b")", b"[", b"]", b"{", b"}", b",", b";",
];

#[tactic(auto, unfolding(crate::specs::Scan::is_one_of))]
fn is_one_of(table: &[&[u8]], word: &[u8]) -> bool
    ensures { result ≡ is_one_of (map (λ entry. entry.now) table.now) word.now }
{
    for entry in table {
        if *entry == word {
            return true;
        }
    }
    false
}

pub fn is_reserved(word: &[u8]) -> bool
    ensures { result ≡ is_one_of reserved_words word.now }
{
    is_one_of(&RESERVED, word)
}

pub fn is_sign(word: &[u8]) -> bool
    ensures { result ≡ is_one_of signs word.now }
{
    is_one_of(&SIGNS, word)
}
