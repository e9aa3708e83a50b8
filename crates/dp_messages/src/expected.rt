//! What may stand at a place of a program: of a table of tokens those that some program has there.
ghost use Rattle.std.specs.Prelude.{◌≤◌, length};
ghost use Rattle.dp_base.specs.declared.limits.TheConstants.{PROGRAM_BYTES};

use crate::page::Page;
use dp_base::limits::PROGRAM_BYTES;
use dp_base::{NoMemory, Row};
use dp_parse::{ParseFail, parse};
use std::alloc::Global;

/// A spelling of each kind of token, the kind's name, and with which others it isn't named, since they say as much.
const KINDS: [(&str, &str, &[&str]); 24] = [
    (";", "`;`", &[]),
    (")", "`)`", &[]),
    ("]", "`]`", &[]),
    (",", "`,`", &[]),
    ("=", "`=`", &[]),
    ("+", "an operator", &[]),
    ("[", "`[`", &["+"]),
    ("(", "`(`", &["1"]),
    ("1", "a number", &["("]),
    ("!", "an expression", &[]),
    ("-", "`-`", &["+", "("]),
    ("print", "a statement", &[]),
    ("x", "a name", &["print", "1"]),
    ("{", "`{`", &[]),
    ("if", "`if`", &["print"]),
    ("while", "`while`", &["print"]),
    ("for", "`for`", &["print"]),
    ("int", "`int`", &["print"]),
    ("void", "`void`", &[]),
    ("main", "`main`", &[]),
    ("else", "`else`", &[]),
    ("break", "`break`", &[]),
    ("return", "`return`", &["print"]),
    ("}", "`}`", &[]),
];

/// So many kinds are named.
const NAMED: usize = 4;

/// The spellings of the kinds that may stand behind this front of a text, which has so many tokens.
pub fn expected(alloc: Global, front: &[u8], tokens: usize) -> Result<Row<&'static str>, NoMemory> {
    let mut found = Row::new(alloc);
    for (spelling, _, _) in &KINDS {
        if may_stand(alloc, front, tokens, spelling)? {
            found.push(*spelling)?;
        }
    }
    Ok(found)
}

/// Whether some program begins with this front, which has so many tokens, and one more.
fn may_stand(alloc: Global, front: &[u8], tokens: usize, spelling: &str) -> Result<bool, NoMemory> {
    let mut text = Row::from_slice(alloc, front)?;
    text.push(b'\n')?;
    text.extend_from_slice(spelling.as_bytes())?;
    if text.len() > PROGRAM_BYTES as usize {
        return Ok(false);
    }
    match parse(alloc, text.as_slice()) {
        Ok(_) => Ok(true),
        Err(ParseFail::Refused { token }) => Ok(token as usize > tokens),
        Err(ParseFail::NoMemory) => Err(NoMemory),
        Err(ParseFail::Lex { .. }) | Err(ParseFail::TooDeep { .. }) => Ok(false),
    }
}

/// Whether a kind is among them, by its spelling.
pub fn has(found: &[&str], spelling: &str) -> bool {
    found.iter().any(|one| *one == spelling)
}

/// Puts the names of these kinds: `A, B or C`.
pub fn put_expected(alloc: Global, page: &mut Page, found: &[&str]) -> Result<(), NoMemory> {
    let mut names = Row::new(alloc);
    for (spelling, name, unless) in &KINDS {
        if has(found, spelling) && !unless.iter().any(|other| has(found, other)) {
            names.push(*name)?;
        }
    }
    put_choice(page, names.as_slice());
    Ok(())
}

/// Puts up to four of the names, or that the text is to end where there are none.
fn put_choice(page: &mut Page, names: &[&str]) {
    if names.is_empty() {
        page.put("the end of the text");
    }
    let count = names.len().min(NAMED);
    for (at, name) in names.iter().take(count).enumerate() {
        if at > 0 {
            page.put(if at + 1 == count { " or " } else { ", " });
        }
        page.put(name);
    }
}
