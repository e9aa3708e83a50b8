//! The answer of a built program.
ghost use Rattle.std.specs.Prelude.{◌<◌, ◌-◌, ◌^◌};

use dp_drive::drive;
use dp_edge::{OpenGate, Shelf};
use dp_messages::{Choices, Kept, Line, Shown, asks_choices, tell, tell_choices};
use dp_run::{NativeCode, Tally};
use dp_system::{FileShelf, OutSink, OwnText, keep_freed_memory};
use std::alloc::AllocGlobal;
use std::io::{ErrorKind, IsTerminal};
use std::rt::{Clock, Env, Files};
use std::sync::Wait;
use std::thread::Threads;
use std::{env, io};

const OUT_OF_MEMORY: u8 = 7;

/// Does all that the program of a text does, and answers its exit status.
///
/// It is `drive` over a shelf that has the text under its name, and the files besides: what `dswp run` answers on this text.
pub fn answer_text<R, E, N>(rt: &R, errors: &E, native: &N, name: &str, text: &[u8]) -> u8
where
    R: Threads + Wait + Clock + Sync + Files + Env + Print + AllocGlobal,
    E: Print + IsTerminal,
    N: NativeCode,
{
    let words = match given_words(rt, name) {
        Ok(words) => words,
        Err(error) if error.kind() == ErrorKind::OutOfMemory => return OUT_OF_MEMORY,
        // a word that isn't text makes the words faulty, as no words are
        Err(_) => Vec::new(rt.alloc()),
    };
    let others = FileShelf::new(rt);
    let mut files = OwnText { name, text, others };
    let others = FileShelf::new(rt);
    let mut files_again = OwnText { name, text, others };
    answer_words(
        rt,
        errors,
        native,
        words.as_slice(),
        &mut files,
        &mut files_again,
    )
}

/// Does what the words ask for, and answers the exit status. What people are told comes from a second shelf.
pub fn answer_words<R, E, N, S>(
    rt: &R,
    errors: &E,
    native: &N,
    words: &[String],
    files: &mut S,
    files_again: &mut S,
) -> u8
where
    R: Threads + Wait + Clock + Sync + Env + Print + AllocGlobal,
    E: Print + IsTerminal,
    N: NativeCode,
    S: Shelf,
    requires files { S.faults files.old < 2 ^ 64 - 1 }
    requires files_again { S.faults files_again.old < 2 ^ 64 - 1 }
{
    keep_freed_memory(rt.alloc());
    let shown = Shown::new(errors);
    let mut output = Kept::new(rt.alloc(), OutSink::new(rt), &shown);
    let choices = Choices::new(rt.alloc(), asks_choices(rt));
    let progress = Line::new(rt.alloc(), rt, &shown, is_watched(rt, errors), choices);
    let mut tally = Tally::new(progress);
    let status = drive(
        rt,
        rt.alloc(),
        native,
        words,
        files,
        &mut output,
        &OpenGate,
        &mut tally,
    );
    shown.wipe();
    tell_more(rt, errors, words, files_again, status, output.tail());
    let mut told = OutSink::new(errors);
    let _ = tell_choices(rt.alloc(), tally.watch().choices(), &mut told);
    status
}

/// Tells people what the answer leaves out. What fails there changes no answer.
fn tell_more<R: AllocGlobal, E: Print, S: Shelf>(
    rt: &R,
    errors: &E,
    words: &[String],
    files: &mut S,
    status: u8,
    tail: &[u8],
)
    requires { S.faults files.old < 2 ^ 64 - 1 }
{
    let mut told = OutSink::new(errors);
    let _ = tell(rt.alloc(), words, files, status, tail, &mut told);
}

/// Whether somebody watches a terminal, and hasn't asked for plain text.
fn is_watched<R: Env + AllocGlobal, E: IsTerminal>(rt: &R, errors: &E) -> bool {
    errors.is_terminal() && env::var(rt, "NO_COLOR").is_err()
}

/// The words of `dswp run` on the program of this name, and then those behind the program's name.
fn given_words<R: Env + AllocGlobal>(rt: &R, name: &str) -> io::Result<Vec<String>> {
    let mut words = Vec::new(rt.alloc());
    words.push(String::from_str(rt.alloc(), "run")?)?;
    words.push(String::from_str(rt.alloc(), name)?)?;
    for word in env::args(rt)?.skip(1) {
        words.push(word)?;
    }
    Ok(words)
}
