//! A refusal as people read it: with the text that it is of.
ghost use Rattle.std.specs.Prelude.{◌≡◌, ◌<◌, ◌≤◌, ◌-◌, ◌^◌};

use crate::byte::tell_byte;
use crate::counts::tell_count;
use crate::files::Files;
use crate::input::tell_word;
use crate::lines::{LineText, tell_line};
use crate::names::tell_name;
use crate::page::Page;
use crate::reading::{name_on, source_of, text_of};
use crate::rules::tell_rule;
use crate::syntax::tell_syntax;
use dp_base::NoMemory;
use dp_base::limits::{
    CHECKPOINT_BYTES, INPUT_BYTES, LIST_BYTES, PLAN_BYTES, PROFILE_BYTES, PROGRAM_BYTES,
};
use dp_edge::Shelf;
use dp_load::read_program;
use dp_refusal::Refusal;
use std::alloc::Global;

/// Tells of a refusal of these files.
pub fn tell_refusal<S: Shelf>(
    alloc: Global,
    page: &mut Page,
    files: Files<'_>,
    refusal: Refusal,
    shelf: &mut S,
) -> Result<(), NoMemory>
    requires { S.faults shelf.old < 2 ^ 64 - 1 }
    ensures { S.contents shelf.new ≡ S.contents shelf.old }
{
    match refusal {
        Refusal::Words => Ok(()),
        Refusal::Byte(_) | Refusal::Syntax(_) | Refusal::Name(_, _) => {
            tell_program(alloc, page, files, refusal, shelf)
        }
        Refusal::Limit(quantity, count) => {
            tell_count(alloc, page, files, quantity, count, shelf)
        }
        Refusal::InputWord(word) => tell_input(alloc, page, files.input, word, shelf),
        Refusal::BatchWord { input, word } => {
            tell_listed(alloc, page, files.list, input, word, shelf)
        }
        Refusal::PlanRule { rule, site } => tell_plans(alloc, page, files, rule, site, shelf),
        Refusal::PlanLine(_)
        | Refusal::ProfileLine(_)
        | Refusal::CheckpointLine(_)
        | Refusal::ListLine(_) => tell_refused_line(alloc, page, files, refusal, shelf),
    }
}

/// Tells of a line of a text that is read line by line.
fn tell_refused_line<S: Shelf>(
    alloc: Global,
    page: &mut Page,
    files: Files<'_>,
    refusal: Refusal,
    shelf: &mut S,
) -> Result<(), NoMemory>
    requires { S.faults shelf.old < 2 ^ 64 - 1 }
    ensures { S.contents shelf.new ≡ S.contents shelf.old }
{
    match refusal {
        Refusal::PlanLine(line) => {
            tell_text(alloc, page, files.plans, LineText::Plans, line, shelf)
        }
        Refusal::ProfileLine(line) => {
            tell_text(alloc, page, files.profile, LineText::Profile, line, shelf)
        }
        Refusal::CheckpointLine(line) => {
            tell_text(
                alloc,
                page,
                files.checkpoint,
                LineText::Checkpoint,
                u64::from(line),
                shelf,
            )
        }
        Refusal::ListLine(line) => {
            tell_text(
                alloc,
                page,
                files.list,
                LineText::List,
                u64::from(line),
                shelf,
            )
        }
        _ => Ok(()),
    }
}

/// Tells of a program's tokens, grammar or names.
fn tell_program<S: Shelf>(
    alloc: Global,
    page: &mut Page,
    files: Files<'_>,
    refusal: Refusal,
    shelf: &mut S,
) -> Result<(), NoMemory>
    requires { S.faults shelf.old < 2 ^ 64 - 1 }
    ensures { S.contents shelf.new ≡ S.contents shelf.old }
{
    let Some(text) = text_of(alloc, shelf, files.program, PROGRAM_BYTES)? else {
        return Ok(());
    };
    let source = source_of(files.program, text.as_slice());
    match refusal {
        Refusal::Byte(place) => {
            tell_byte(page, source, place);
            Ok(())
        }
        Refusal::Syntax(token) => tell_syntax(alloc, page, source, token),
        Refusal::Name(offence, line) => tell_name(alloc, page, source, offence, line),
        _ => Ok(()),
    }
}

/// Tells of a word of an input.
fn tell_input<S: Shelf>(
    alloc: Global,
    page: &mut Page,
    name: Option<&str>,
    word: u32,
    shelf: &mut S,
) -> Result<(), NoMemory>
    requires { S.faults shelf.old < 2 ^ 64 - 1 }
    ensures { S.contents shelf.new ≡ S.contents shelf.old }
{
    if let Some(text) = text_of(alloc, shelf, name, INPUT_BYTES)? {
        tell_word(page, source_of(name, text.as_slice()), word);
    }
    Ok(())
}

/// Tells of a word of the input with this number in a list.
fn tell_listed<S: Shelf>(
    alloc: Global,
    page: &mut Page,
    list: Option<&str>,
    input: u32,
    word: u32,
    shelf: &mut S,
) -> Result<(), NoMemory>
    requires { S.faults shelf.old < 2 ^ 64 - 1 }
    ensures { S.contents shelf.new ≡ S.contents shelf.old }
{
    let Some(names) = text_of(alloc, shelf, list, LIST_BYTES)? else {
        return Ok(());
    };
    tell_input(alloc, page, name_on(names.as_slice(), input), word, shelf)
}

/// Tells of a rule that plans break.
fn tell_plans<S: Shelf>(
    alloc: Global,
    page: &mut Page,
    files: Files<'_>,
    rule: u32,
    site: u32,
    shelf: &mut S,
) -> Result<(), NoMemory>
    requires { S.faults shelf.old < 2 ^ 64 - 1 }
    ensures { S.contents shelf.new ≡ S.contents shelf.old }
{
    let Some(plans) = text_of(alloc, shelf, files.plans, PLAN_BYTES)? else {
        return Ok(());
    };
    let Some(text) = text_of(alloc, shelf, files.program, PROGRAM_BYTES)? else {
        return Ok(());
    };
    if let Ok(program) = read_program(alloc, text.as_slice())? {
        let plans = source_of(files.plans, plans.as_slice());
        let source = source_of(files.program, text.as_slice());
        tell_rule(page, plans, source, &program, rule, site);
    }
    Ok(())
}

/// Tells of the line with this number.
fn tell_text<S: Shelf>(
    alloc: Global,
    page: &mut Page,
    name: Option<&str>,
    lines: LineText,
    number: u64,
    shelf: &mut S,
) -> Result<(), NoMemory>
    requires { S.faults shelf.old < 2 ^ 64 - 1 }
    ensures { S.contents shelf.new ≡ S.contents shelf.old }
{
    let room = match lines {
        LineText::Plans => PLAN_BYTES,
        LineText::Profile => PROFILE_BYTES,
        LineText::Checkpoint => CHECKPOINT_BYTES,
        LineText::List => LIST_BYTES,
    };
    if let Some(text) = text_of(alloc, shelf, name, room)? {
        tell_line(page, source_of(name, text.as_slice()), lines, number);
    }
    Ok(())
}
