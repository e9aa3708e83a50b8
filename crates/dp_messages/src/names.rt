//! A name of a program that offends: which one, what it is elsewhere, and which visible name it may have been meant for.
ghost use Rattle.std.specs.Prelude.{◌≤◌, length};
ghost use Rattle.dp_base.specs.declared.limits.TheConstants.{PROGRAM_BYTES};

use crate::near::distance;
use crate::page::Page;
use crate::scope::{Scope, Seen, Sort, declares};
use crate::source::{Source, Spot, numbered_line, put_head, put_spot, written_on};
use crate::tokens::{Placed, placed_tokens, text_at, text_before, text_behind};
use dp_base::NoMemory;
use dp_lex::TokenKind;
use dp_refusal::Offence;
use std::alloc::Global;

/// Tells of the first name on this line that offends so.
pub fn tell_name(
    alloc: Global,
    page: &mut Page,
    source: Source<'_>,
    offence: Offence,
    line: u32,
) -> Result<(), NoMemory>
    requires { length source.text.now ≤ PROGRAM_BYTES }
{
    let tokens = placed_tokens(alloc, source.text)?;
    let tokens = tokens.as_slice();
    let mut scope = Scope::new(alloc)?;
    for (at, placed) in tokens.iter().enumerate() {
        if placed.token.line == line && is_name(*placed) && offends(&scope, tokens, at, offence) {
            tell_at(page, source, tokens, at, &scope, offence);
            return Ok(());
        }
        scope.pass(tokens, at)?;
    }
    tell_line(page, source, offence, line);
    Ok(())
}

fn is_name(placed: Placed<'_>) -> bool {
    matches!(placed.token.kind, TokenKind::Name)
}

/// Whether the name at a place of the list offends so, where this is visible.
fn offends(scope: &Scope<'_>, tokens: &[Placed<'_>], at: usize, offence: Offence) -> bool {
    let known = scope.find(text_at(tokens, at));
    if declares(tokens, at) {
        return matches!(offence, Offence::Twice) && known.is_some();
    }
    let called = matches!(text_behind(tokens, at, 1), b"(");
    let indexed = matches!(text_behind(tokens, at, 1), b"[");
    match known {
        None => matches!(offence, Offence::Unknown),
        Some(seen) => match offence {
            Offence::Unknown => seen.is_function() != called,
            Offence::Twice => false,
            Offence::NotArray => seen.sort == Sort::Scalar && indexed,
            Offence::NotScalar => seen.sort == Sort::Array && !indexed,
            Offence::Arguments => called && arguments_behind(tokens, at) != seen.params(),
            Offence::ReadOnly => seen.at.is_none() && is_assigned(tokens, at),
        },
    }
}

/// How many arguments stand behind a called name.
fn arguments_behind(tokens: &[Placed<'_>], at: usize) -> usize {
    if matches!(text_behind(tokens, at, 2), b")") {
        return 0;
    }
    let mut count: usize = 1;
    let mut open: usize = 0;
    for placed in tokens.iter().skip(at) {
        match placed.token.text {
            b"(" | b"[" => open = open.saturating_add(1),
            b")" | b"]" => open = open.saturating_sub(1),
            b"," if open == 1 => count = count.saturating_add(1),
            b";" => return count,
            _ => {}
        }
    }
    count
}

/// Whether the name stands at the front of an assignment.
fn is_assigned(tokens: &[Placed<'_>], at: usize) -> bool {
    let begins = matches!(text_before(tokens, at, 1), b";" | b"{" | b"}" | b"(" | b")");
    let mut open: usize = 0;
    for placed in tokens.iter().skip(at.saturating_add(1)) {
        match placed.token.text {
            b"[" => open = open.saturating_add(1),
            b"]" => open = open.saturating_sub(1),
            b"=" => return begins && open == 0,
            _ if open == 0 => return false,
            _ => {}
        }
    }
    false
}

/// Tells of the name at a place of the list.
fn tell_at(
    page: &mut Page,
    source: Source<'_>,
    tokens: &[Placed<'_>],
    at: usize,
    scope: &Scope<'_>,
    offence: Offence,
) {
    let Some(placed) = tokens.get(at) else {
        return;
    };
    let name = placed.token.text;
    put_head(page, source, placed.spot(), "error");
    put_what(
        page,
        name,
        matches!(text_behind(tokens, at, 1), b"("),
        offence,
    );
    let found = scope.find(name);
    if let (Offence::Arguments, Some(seen)) = (offence, found) {
        put_numbers(page, arguments_behind(tokens, at), seen.params());
    }
    page.put("\n");
    put_spot(page, source, placed.spot(), "");
    match found {
        Some(seen) => put_declaration(page, source, tokens, seen),
        None => put_unknown(page, source, tokens, at, scope),
    }
    put_advice(page, offence);
}

/// Puts what is wrong with the name.
fn put_what(page: &mut Page, name: &[u8], called: bool, offence: Offence) {
    page.quote(name);
    page.put(match offence {
        Offence::Unknown if called => " is called, and is no function that is visible here",
        Offence::Unknown => " is no variable that is visible here",
        Offence::Twice => " is declared where it is visible already",
        Offence::NotArray => " has an index, and is no array",
        Offence::NotScalar => " is an array, and has no index",
        Offence::Arguments => " is called with the wrong number of arguments",
        Offence::ReadOnly => " can't be assigned",
    });
}

/// Puts how many arguments a call has, and how many it should have.
fn put_numbers(page: &mut Page, arguments: usize, params: usize) {
    page.put(": ");
    page.put_number(arguments as u64);
    page.put(", and it has ");
    page.put_number(params as u64);
    page.put(if params == 1 {
        " parameter"
    } else {
        " parameters"
    });
}

fn put_advice(page: &mut Page, offence: Offence) {
    match offence {
        Offence::Twice => page.hint("a name can't hide another: give one of them another name"),
        Offence::ReadOnly => page.hint("the input can only be read: copy it into a variable"),
        Offence::Unknown | Offence::NotArray | Offence::NotScalar | Offence::Arguments => {}
    }
}

/// Puts where the name is declared.
fn put_declaration(page: &mut Page, source: Source<'_>, tokens: &[Placed<'_>], seen: Seen<'_>) {
    let declared = match seen.at {
        Some(at) => tokens.get(at),
        None => None,
    };
    let Some(placed) = declared else {
        page.hint(
            "`input` is the array of the input's numbers, and `input_len` is how many there are",
        );
        return;
    };
    put_head(page, source, placed.spot(), "note");
    page.put("it is declared here\n");
    put_spot(page, source, placed.spot(), "");
}

/// Puts where else the name is declared, or the visible name that comes nearest to it.
fn put_unknown(
    page: &mut Page,
    source: Source<'_>,
    tokens: &[Placed<'_>],
    at: usize,
    scope: &Scope<'_>,
) {
    let name = text_at(tokens, at);
    if let Some(elsewhere) = declared_elsewhere(tokens, name) {
        put_head(page, source, elsewhere.spot(), "note");
        page.put("it is declared here, and isn't visible from there\n");
        put_spot(page, source, elsewhere.spot(), "");
        return;
    }
    let called = matches!(text_behind(tokens, at, 1), b"(");
    if let Some(seen) = nearest(scope, name, called) {
        page.put("      = hint: ");
        page.quote(seen.name);
        page.put(" is visible here\n");
    }
}

/// A declaration of the name that isn't visible.
fn declared_elsewhere<'t>(tokens: &[Placed<'t>], name: &[u8]) -> Option<Placed<'t>> {
    for (at, placed) in tokens.iter().enumerate() {
        if placed.token.text == name && declares(tokens, at) {
            return Some(*placed);
        }
    }
    None
}

/// The visible name that comes nearest to this one, among the functions or among the variables.
fn nearest<'t>(scope: &Scope<'t>, name: &[u8], called: bool) -> Option<Seen<'t>> {
    let mut best = None;
    let mut least = u32::MAX;
    for seen in scope.visible() {
        if seen.is_function() == called {
            if let Some(changes) = distance(name, seen.name) {
                if changes < least {
                    least = changes;
                    best = Some(*seen);
                }
            }
        }
    }
    best
}

/// Tells of the line alone, where its name isn't found.
fn tell_line(page: &mut Page, source: Source<'_>, offence: Offence, line: u32) {
    let spot: Spot = written_on(source.text, numbered_line(source.text, u64::from(line)));
    put_head(page, source, spot, "error");
    page.put("a name on this line");
    put_what(page, b"", false, offence);
    page.put("\n");
    put_spot(page, source, spot, "");
}
