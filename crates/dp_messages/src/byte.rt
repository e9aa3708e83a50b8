//! A place of a program where no token begins.
use crate::page::Page;
use crate::source::{Source, Spot, piece, put_head, put_spot};

/// What is wrong with the bytes that stand there.
#[derive(Clone, Copy)]
struct Fault {
    len: usize,
    what: &'static str,
    advice: &'static str,
}

/// What isn't a token by its first byte, with what to do about it.
const SIGNS: [(u8, &str, &str); 14] = [
    (
        b'&',
        "no token begins with a single `&`",
        "`&&` is an operator; there are no pointers and no operators on bits",
    ),
    (
        b'|',
        "no token begins with a single `|`",
        "`||` is an operator; there are no operators on bits",
    ),
    (
        b'^',
        "no token begins with `^`",
        "there are no operators on bits",
    ),
    (
        b'~',
        "no token begins with `~`",
        "there are no operators on bits",
    ),
    (
        b'?',
        "no token begins with `?`",
        "there is no `?:`: write an `if`",
    ),
    (
        b':',
        "no token begins with `:`",
        "there are no labels and no `?:`",
    ),
    (
        b'\'',
        "no token begins with `'`",
        "there are no character literals: write the number",
    ),
    (
        b'"',
        "no token begins with `\"`",
        "there are no string literals; `print` takes a number",
    ),
    (
        b'.',
        "no token begins with `.`",
        "numbers are whole, and there are no structs",
    ),
    (
        b'#',
        "no token begins so",
        "of the preprocessor there is `#pragma dswp` alone, with blanks between its two words",
    ),
    (b'/', "this comment isn't closed", "`*/` closes it"),
    (
        b'\\',
        "no token begins with `\\`",
        "a line can't be continued",
    ),
    (b'@', "no token begins with `@`", ""),
    (
        b'$',
        "no token begins with `$`",
        "a name has letters, digits and `_`",
    ),
];

/// Tells of the place, counted in bytes from 0.
pub fn tell_byte(page: &mut Page, source: Source<'_>, place: u32) {
    let from = place as usize;
    let rest = piece(source.text, from, source.text.len());
    let fault = fault_of(rest);
    let spot = Spot {
        from,
        len: fault.len,
    };
    put_head(page, source, spot, "error");
    page.put(fault.what);
    page.put("\n");
    put_spot(page, source, spot, "");
    if !fault.advice.is_empty() {
        page.hint(fault.advice);
    }
}

fn fault_of(rest: &[u8]) -> Fault {
    match rest.first() {
        Some(first) if first.is_ascii_digit() => fault_of_number(rest),
        Some(first) => fault_of_sign(*first),
        None => fault_of_sign(b' '),
    }
}

fn fault_of_sign(first: u8) -> Fault {
    for (sign, what, advice) in &SIGNS {
        if *sign == first {
            return Fault {
                len: 1,
                what,
                advice,
            };
        }
    }
    Fault {
        len: 1,
        what: "no token begins with this byte",
        advice: "outside of comments a program is written in ASCII",
    }
}

/// What is wrong with digits that are no number, or with what follows them.
fn fault_of_number(rest: &[u8]) -> Fault {
    let digits = rest.iter().take_while(|byte| byte.is_ascii_digit()).count();
    let len = rest.iter().take_while(|byte| is_of_word(**byte)).count();
    let leads = rest.first() == Some(&b'0');
    if len > digits {
        Fault {
            len,
            what: "a letter follows a number",
            advice: "numbers are decimal, without suffixes",
        }
    } else if leads {
        Fault {
            len,
            what: "a number has leading zeros",
            advice: "numbers are decimal, also with a 0 in front in C: leave it out",
        }
    } else {
        Fault {
            len,
            what: "this number is greater than 9223372036854775807",
            advice: "the least number is written `-9223372036854775807 - 1`",
        }
    }
}

fn is_of_word(byte: u8) -> bool {
    byte.is_ascii_alphanumeric() || byte == b'_'
}
