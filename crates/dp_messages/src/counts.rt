//! A count that is above its limit, with the file that is measured.
ghost use Rattle.std.specs.Prelude.{◌≡◌, ◌<◌, ◌-◌, ◌^◌};

use crate::files::Files;
use crate::input::{count_words, tell_many};
use crate::limits::{tell_file, tell_limit};
use crate::page::Page;
use crate::reading::{LISTED_INPUTS, name_on, source_of, text_of};
use dp_base::limits::{INPUT_BYTES, INPUT_WORDS, LIST_BYTES, PROGRAM_BYTES};
use dp_base::{NoMemory, Quantity};
use dp_edge::Shelf;
use dp_refusal::Role;
use std::alloc::Global;

/// Tells of a count that is above its limit.
pub fn tell_count<S: Shelf>(
    alloc: Global,
    page: &mut Page,
    files: Files<'_>,
    quantity: Quantity,
    count: u32,
    shelf: &mut S,
) -> Result<(), NoMemory>
    requires { S.faults shelf.old < 2 ^ 64 - 1 }
    ensures { S.contents shelf.new ≡ S.contents shelf.old }
{
    match role_of(quantity) {
        Some(Role::Input) => match files.list {
            Some(_) => tell_large_input(alloc, page, files.list, quantity, count, shelf),
            None => tell_words_of(alloc, page, files.input, quantity, count, shelf),
        },
        Some(role) => {
            tell_file(page, files.name(role).unwrap_or(""), quantity, count);
            Ok(())
        }
        None => {
            let Some(text) = text_of(alloc, shelf, files.program, PROGRAM_BYTES)? else {
                return Ok(());
            };
            let source = source_of(files.program, text.as_slice());
            tell_limit(alloc, page, source, quantity, count)
        }
    }
}

/// The role of the file that is measured, where it isn't read as a program.
fn role_of(quantity: Quantity) -> Option<Role> {
    match quantity {
        Quantity::ProgramBytes => Some(Role::Program),
        Quantity::InputBytes => Some(Role::Input),
        Quantity::InputWords => Some(Role::Input),
        Quantity::PlanBytes => Some(Role::Plan),
        Quantity::ProfileBytes => Some(Role::Profile),
        Quantity::LogBytes => Some(Role::Log),
        Quantity::CheckpointBytes => Some(Role::Checkpoint),
        Quantity::ListBytes => Some(Role::List),
        Quantity::Nesting
        | Quantity::Operators
        | Quantity::ElseIf
        | Quantity::Functions
        | Quantity::Cells
        | Quantity::InlinedSize
        | Quantity::RegionSites => None,
    }
}

/// Tells of an input's length or of the number of its words.
fn tell_words_of<S: Shelf>(
    alloc: Global,
    page: &mut Page,
    name: Option<&str>,
    quantity: Quantity,
    count: u32,
    shelf: &mut S,
) -> Result<(), NoMemory>
    requires { S.faults shelf.old < 2 ^ 64 - 1 }
    ensures { S.contents shelf.new ≡ S.contents shelf.old }
{
    match text_of(alloc, shelf, name, INPUT_BYTES)? {
        Some(text) => tell_many(page, source_of(name, text.as_slice()), count),
        None => tell_file(page, name.unwrap_or(""), quantity, count),
    }
    Ok(())
}

/// Tells of the first input of a list that is too large.
fn tell_large_input<S: Shelf>(
    alloc: Global,
    page: &mut Page,
    list: Option<&str>,
    quantity: Quantity,
    count: u32,
    shelf: &mut S,
) -> Result<(), NoMemory>
    requires { S.faults shelf.old < 2 ^ 64 - 1 }
    ensures { S.contents shelf.new ≡ S.contents shelf.old }
{
    let Some(names) = text_of(alloc, shelf, list, LIST_BYTES)? else {
        return Ok(());
    };
    tell_large_from(alloc, page, names.as_slice(), quantity, count, shelf)
}

/// The same of the inputs of these names.
fn tell_large_from<S: Shelf>(
    alloc: Global,
    page: &mut Page,
    names: &[u8],
    quantity: Quantity,
    count: u32,
    shelf: &mut S,
) -> Result<(), NoMemory>
    requires { S.faults shelf.old < 2 ^ 64 - 1 }
    ensures { S.contents shelf.new ≡ S.contents shelf.old }
{
    for number in 1..LISTED_INPUTS + 1 {
        let name = name_on(names, number);
        let Some(text) = text_of(alloc, shelf, name, INPUT_BYTES)? else {
            tell_file(page, name.unwrap_or(""), quantity, count);
            return Ok(());
        };
        if count_words(text.as_slice()) > u64::from(INPUT_WORDS) {
            tell_many(page, source_of(name, text.as_slice()), count);
            return Ok(());
        }
    }
    Ok(())
}
