//! `dswp` runs a sequential program in a small C, whose marked loops are to run as pipelines of stages, and answers
//! exactly what the sequential program answers.
#![tactic(auto)]

#[cfg(test)]
mod tests;

use dp_drive::drive;
use dp_edge::OpenGate;
use dp_messages::{Choices, Kept, Line, Shown, asks_choices, tell, tell_choices};
use dp_run::{NoNativeCode, Tally};
use dp_system::{FileShelf, OutSink, keep_freed_memory};
use std::io::{ErrorKind, IsTerminal};
use std::process::ExitCode;
use std::{env, io};

const OUT_OF_MEMORY: u8 = 7;

fn main(rt: HostRuntime) -> ExitCode {
    keep_freed_memory(rt.alloc());
    let words = match given_words(&rt) {
        Ok(words) => words,
        Err(error) if error.kind() == ErrorKind::OutOfMemory => return ExitCode::from(
            OUT_OF_MEMORY,
        ),
        // a word that isn't text makes the words faulty, as no words are
        Err(_) => Vec::new(rt.alloc()),
    };
    let mut files = FileShelf::new(&rt);
    let stderr = rt.stderr();
    let shown = Shown::new(&stderr);
    let mut output = Kept::new(rt.alloc(), OutSink::new(&rt), &shown);
    let choices = Choices::new(rt.alloc(), asks_choices(&rt));
    let progress = Line::new(rt.alloc(), &rt, &shown, is_watched(&rt), choices);
    let mut tally = Tally::new(progress);
    let status = drive(
        &rt,
        rt.alloc(),
        &NoNativeCode,
        words.as_slice(),
        &mut files,
        &mut output,
        &OpenGate,
        &mut tally,
    );
    shown.wipe();
    tell_people(
        &rt,
        words.as_slice(),
        status,
        output.tail(),
        tally.watch().choices(),
    );
    ExitCode::from(status)
}

/// Whether somebody watches a terminal, and hasn't asked for plain text.
fn is_watched(rt: &HostRuntime) -> bool {
    rt.stderr().is_terminal() && env::var(rt, "NO_COLOR").is_err()
}

/// Writes what people are told to standard error. What fails there changes no answer.
fn tell_people(rt: &HostRuntime, words: &[String], status: u8, tail: &[u8], choices: &Choices) {
    let stderr = rt.stderr();
    let mut files = FileShelf::new(rt);
    let mut errors = OutSink::new(&stderr);
    let _ = tell(rt.alloc(), words, &mut files, status, tail, &mut errors);
    let mut lines = OutSink::new(&stderr);
    let _ = tell_choices(rt.alloc(), choices, &mut lines);
}

/// The words after the program's name.
fn given_words(rt: &HostRuntime) -> io::Result<Vec<String>> {
    let words = env::args(rt)?.skip(1).collect(rt.alloc())?;
    Ok(words)
}
