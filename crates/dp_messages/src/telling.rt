//! What is told of one call of the program.
ghost use Rattle.std.specs.Prelude.{◌≡◌, ◌<◌, ◌-◌, ◌^◌};
ghost use Rattle.dp_edge.specs.Writing.{FaultsAfter};

use crate::files::files_of;
use crate::help::tell_words;
use crate::page::Page;
use crate::reason::{Finding, why};
use crate::refusals::tell_refusal;
use crate::runs::tell_run;
use crate::unread::{tell_unread, tell_unread_input};
use dp_base::NoMemory;
use dp_edge::{Shelf, Sink, WriteFail, write};
use dp_words::asked;
use std::alloc::Global;

/// Writes what is to be told of words that were answered with this status and a text that ended so: why they are refused,
/// which text couldn't be read, how words are used, how a run ended, or why iterations were executed again. Files are read
/// anew, so that of one that has changed since what it holds now is told, or nothing. Where memory is wanting the message
/// ends early.
pub fn tell<S: Shelf, K: Sink>(
    alloc: Global,
    words: &[String],
    shelf: &mut S,
    status: u8,
    tail: &[u8],
    sink: &mut K,
) -> Result<(), WriteFail>
    requires shelf { S.faults shelf.old < 2 ^ 64 - 1 }
    requires sink { K.faults sink.old < 2 ^ 64 - 1 }
    ensures contents { S.contents shelf.new ≡ S.contents shelf.old }
    ensures faults { FaultsAfter result (K.faults sink.old) (K.faults sink.new) }
{
    let mut page = Page::new(alloc);
    match put_message(alloc, &mut page, words, shelf, status, tail) {
        Ok(()) | Err(NoMemory) => write(page.text(), sink),
    }
}

/// Puts the message, if there is one.
fn put_message<S: Shelf>(
    alloc: Global,
    page: &mut Page,
    words: &[String],
    shelf: &mut S,
    status: u8,
    tail: &[u8],
) -> Result<(), NoMemory>
    requires { S.faults shelf.old < 2 ^ 64 - 1 }
    ensures { S.contents shelf.new ≡ S.contents shelf.old }
{
    match status {
        2 => tell_words(alloc, page, words),
        3 | 4 | 9 => put_refusal(alloc, page, words, shelf),
        5 => put_unread(alloc, page, words, shelf, tail),
        0 | 1 | 8 | 10 => put_run(alloc, page, words, shelf, tail),
        _ => Ok(()),
    }
}

fn put_refusal<S: Shelf>(
    alloc: Global,
    page: &mut Page,
    words: &[String],
    shelf: &mut S,
) -> Result<(), NoMemory>
    requires { S.faults shelf.old < 2 ^ 64 - 1 }
    ensures { S.contents shelf.new ≡ S.contents shelf.old }
{
    let Finding::Refused(refusal) = why(alloc, words, shelf)? else {
        return Ok(());
    };
    match asked(alloc, words)? {
        Some(task) => tell_refusal(alloc, page, files_of(&task), refusal, shelf),
        None => Ok(()),
    }
}

fn put_unread<S: Shelf>(
    alloc: Global,
    page: &mut Page,
    words: &[String],
    shelf: &mut S,
    tail: &[u8],
) -> Result<(), NoMemory>
    requires { S.faults shelf.old < 2 ^ 64 - 1 }
    ensures { S.contents shelf.new ≡ S.contents shelf.old }
{
    let Some(task) = asked(alloc, words)? else {
        return Ok(());
    };
    let files = files_of(&task);
    if files.list.is_some() && matches!(tail, b"failed read input\n") {
        tell_unread_input(alloc, page, files.list, shelf)
    } else {
        tell_unread(alloc, page, words, files, shelf)
    }
}

fn put_run<S: Shelf>(
    alloc: Global,
    page: &mut Page,
    words: &[String],
    shelf: &mut S,
    tail: &[u8],
) -> Result<(), NoMemory>
    requires { S.faults shelf.old < 2 ^ 64 - 1 }
    ensures { S.contents shelf.new ≡ S.contents shelf.old }
{
    match asked(alloc, words)? {
        Some(task) => tell_run(alloc, page, &task, files_of(&task), tail, shelf),
        None => Ok(()),
    }
}
