//! A file that can't be read.
ghost use Rattle.std.specs.Prelude.{◌≡◌, ◌<◌, ◌-◌, ◌^◌};

use crate::files::Files;
use crate::page::Page;
use crate::reading::{LISTED_INPUTS, name_on, text_of};
use crate::reason::{Finding, why};
use dp_base::NoMemory;
use dp_base::limits::{INPUT_BYTES, LIST_BYTES};
use dp_edge::Shelf;
use dp_refusal::Role;
use std::alloc::Global;

/// Tells which of the files that the words name couldn't be read.
pub fn tell_unread<S: Shelf>(
    alloc: Global,
    page: &mut Page,
    words: &[String],
    files: Files<'_>,
    shelf: &mut S,
) -> Result<(), NoMemory>
    requires { S.faults shelf.old < 2 ^ 64 - 1 }
    ensures { S.contents shelf.new ≡ S.contents shelf.old }
{
    match why(alloc, words, shelf)? {
        Finding::Unread(role) => put_unread(page, files.name(role), role),
        Finding::Refused(_) | Finding::Nothing => {}
    }
    Ok(())
}

/// Tells which input of a list couldn't be read, if it was one: the other files are read before.
pub fn tell_unread_input<S: Shelf>(
    alloc: Global,
    page: &mut Page,
    list: Option<&str>,
    shelf: &mut S,
) -> Result<(), NoMemory>
    requires { S.faults shelf.old < 2 ^ 64 - 1 }
    ensures { S.contents shelf.new ≡ S.contents shelf.old }
{
    let Some(names) = text_of(alloc, shelf, list, LIST_BYTES)? else {
        put_unread(page, list, Role::List);
        return Ok(());
    };
    find_unread(alloc, page, names.as_slice(), shelf)
}

/// Tells of the first input of these names that can't be read.
fn find_unread<S: Shelf>(
    alloc: Global,
    page: &mut Page,
    names: &[u8],
    shelf: &mut S,
) -> Result<(), NoMemory>
    requires { S.faults shelf.old < 2 ^ 64 - 1 }
    ensures { S.contents shelf.new ≡ S.contents shelf.old }
{
    for number in 1..LISTED_INPUTS + 1 {
        let name = name_on(names, number);
        if text_of(alloc, shelf, name, INPUT_BYTES)?.is_none() {
            put_unread(page, name, Role::Input);
            return Ok(());
        }
    }
    Ok(())
}

/// Puts that the file of this name and role can't be read, where it has one.
fn put_unread(page: &mut Page, name: Option<&str>, role: Role) {
    let Some(name) = name else {
        return;
    };
    page.put(name);
    page.put(": error: ");
    page.put(match role {
        Role::Program => "the program can't be read",
        Role::Input => "the input can't be read",
        Role::List => "the list can't be read",
        Role::Plan => "the plans can't be read",
        Role::Profile => "the profile can't be read",
        Role::Log => "the log can't be read",
        Role::Checkpoint => "the checkpoint can't be read",
    });
    page.put("\n");
    page.hint(
        "there is no such file, it is a folder, or it may not be read; names are looked up from the folder of the call",
    );
}
