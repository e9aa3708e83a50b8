//! The texts that a message shows, read anew.
ghost use Rattle.std.specs.Prelude.{◌≡◌, ◌<◌, ◌≤◌, ◌-◌, ◌^◌, length, IfOk, IfSome};

use crate::source::Source;
use dp_base::{NoMemory, Row};
use dp_edge::{Shelf, ShelfFail};
use std::alloc::Global;

/// A list has at most so many inputs.
pub const LISTED_INPUTS: u32 = 64;

/// The text under a name, if it can be read and isn't longer than there is room for.
pub fn text_of<S: Shelf>(
    alloc: Global,
    shelf: &mut S,
    name: Option<&str>,
    room: u32,
) -> Result<Option<Row<u8>>, NoMemory>
    requires { S.faults shelf.old < 2 ^ 64 - 1 }
    ensures contents { S.contents shelf.new ≡ S.contents shelf.old }
    ensures within { IfOk result (λ text. IfSome text (λ t. length t ≤ room)) }
    ensures faults { IfOk result (λ text. IfSome text (λ t. S.faults shelf.new ≡ S.faults shelf.old)) }
{
    let Some(name) = name else {
        return Ok(None);
    };
    match shelf.read(alloc, name, room) {
        Ok(text) => Ok(Some(Row::from_vec(text))),
        Err(ShelfFail::Failed) => Ok(None),
        Err(ShelfFail::TooLong) => Ok(None),
        Err(ShelfFail::NoMemory) => Err(NoMemory),
    }
}

/// The line with this number, from 1, as a name.
pub fn name_on(text: &[u8], number: u32) -> Option<&str> {
    let mut left = number;
    let mut from: usize = 0;
    for (at, byte) in text.iter().enumerate() {
        if *byte == b'\n' {
            left = left.saturating_sub(1);
            if left == 0 {
                return match str::from_utf8(text.get(from..at)?) {
                    Ok(name) => Some(name),
                    Err(_) => None,
                };
            }
            from = at.saturating_add(1);
        }
    }
    None
}

/// The text of a file whose name may be missing.
pub fn source_of<'t>(name: Option<&'t str>, text: &'t [u8]) -> Source<'t>
    ensures { result.text.now ≡ text.now }
{
    Source {
        name: name.unwrap_or(""),
        text,
    }
}
