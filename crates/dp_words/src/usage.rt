//! What is told of words that a verb doesn't take, and how a verb is used.

use crate::arguments::{Argument, arg_of};
use crate::verb::{Line, verb_line};
use clap::error::ErrorKind;
use clap::{Arg, Command, Error};
use dp_base::NoMemory;
use std::alloc::Global;

/// The word of each verb, with what is done by it.
pub const VERBS: [(&str, &str); 12] = [
    (
        "run",
        "Run a program on an input's numbers, and write its answer",
    ),
    ("plan", "Write the least plan of each region of a program"),
    (
        "explain",
        "Write the least plan of each region, and what it rests on",
    ),
    ("check", "List the regions and the sites of a program"),
    ("tree", "Write a program as a tree"),
    (
        "profile",
        "Run a program, and write what that shows of its regions",
    ),
    (
        "gen",
        "Run a made program on SIZE numbers that are made from SEED",
    ),
    (
        "log",
        "Run a program, and write what each iteration changed",
    ),
    ("audit", "Say whether a text is the log of a program's run"),
    (
        "save",
        "Run a program up to an iteration of a region, and write a checkpoint",
    ),
    ("resume", "Go on with a run from a checkpoint"),
    ("batch", "Run a program on each input of a list"),
];

/// What a name or an option is for: its id, what stands for its value, and a sentence.
const USES: [(&str, &str, &str); 17] = [
    ("program", "PROGRAM", "The file with the program"),
    (
        "input",
        "INPUT",
        "The file with the input's numbers; without it there are none",
    ),
    ("log", "LOG", "The file with the log"),
    ("checkpoint", "CHECKPOINT", "The file with the checkpoint"),
    (
        "list",
        "LIST",
        "The file with the names of the inputs, one a line",
    ),
    (
        "seed",
        "SEED",
        "From what the numbers are made, 0 to 2147483647",
    ),
    ("size", "SIZE", "How many numbers are made, 1 to 65536"),
    (
        "plan",
        "FILE",
        "The plans of the regions; without it each region has its least plan",
    ),
    (
        "profile",
        "FILE",
        "What an earlier run showed, for the least plans",
    ),
    (
        "rate",
        "N",
        "Up to how many loads in a thousand runs are rare, 0 to 1000; 10 if not given",
    ),
    (
        "stages",
        "N",
        "The most stages of a least plan, 1 to 8; 4 if not given",
    ),
    (
        "workers",
        "N",
        "The workers of a replicated stage, 1 to 8; 2 if not given",
    ),
    (
        "lane",
        "N",
        "The places of a lane between two stages, 1 to 64; 16 if not given",
    ),
    (
        "fuel",
        "N",
        "The most steps of the run, 0 to 1000000000; 10000000 if not given",
    ),
    (
        "why",
        "",
        "List the causes why iterations were executed again",
    ),
    (
        "region",
        "N",
        "The region before whose iteration the run stops, from 1",
    ),
    ("after", "N", "The iteration before which it stops, from 0"),
];

/// Why a verb's command doesn't take the words, or its help where they ask for that, and how it is used. There is nothing to
/// say where no verb begins the words, or its command takes them.
pub fn complaint(alloc: Global, words: &[String]) -> Result<Option<String>, NoMemory> {
    let Some((verb, rest)) = words.split_first() else {
        return Ok(None);
    };
    match verb_line(verb.as_str()) {
        Some(line) => complaint_by(alloc, line, rest),
        None => Ok(None),
    }
}

/// The same of the words behind the line's verb.
fn complaint_by(alloc: Global, line: Line, words: &[String]) -> Result<Option<String>, NoMemory> {
    let mut command = described(alloc, line)?;
    match command.try_get_matches_from_mut(words) {
        Ok(_) => Ok(None),
        Err(error) => {
            let text = text_of(alloc, error)?;
            if text.as_str().contains("Usage: ") {
                return Ok(Some(text));
            }
            let usage = command.render_usage()?;
            let usage = usage.as_str();
            let text = text.as_str();
            let with_usage = format!(in alloc; "{text}\n{usage}\n")?;
            Ok(Some(with_usage))
        }
    }
}

/// The text of clap's error.
fn text_of(alloc: Global, error: Error) -> Result<String, NoMemory> {
    if matches!(error.kind(), ErrorKind::OutOfMemory) {
        return Err(NoMemory);
    }
    let text = format!(in alloc; "{error}")?;
    Ok(text)
}

/// The command of the line's verb, with what is said of it and of what it takes.
fn described<'w>(alloc: Global, line: Line) -> Result<Command<'w>, NoMemory> {
    let word = line.word;
    let name = format!(in alloc; "dswp {word}")?;
    let command = Command::new(alloc, line.word)
        .no_binary_name(true)
        .about(sentence(line.word))
        .bin_name(name.as_str())?;
    let command = with_described(alloc, command, line.names)?;
    let command = with_described(alloc, command, line.options)?;
    with_described(alloc, command, line.further)
}

/// What is done by the verb with this word.
fn sentence(word: &str) -> &'static str {
    for (verb, sentence) in &VERBS {
        if *verb == word {
            return sentence;
        }
    }
    ""
}

/// The command with these behind what it takes.
fn with_described<'w>(
    alloc: Global,
    mut command: Command<'w>,
    arguments: &[Argument],
) -> Result<Command<'w>, NoMemory> {
    for argument in arguments {
        command = command.arg(described_arg(alloc, *argument))?;
    }
    Ok(command)
}

/// The argument, with what is said of it.
fn described_arg<'w>(alloc: Global, argument: Argument) -> Arg<'w> {
    let (value, text) = use_of(id_of(argument));
    let arg = arg_of(alloc, argument).help(text);
    if value.is_empty() {
        return arg;
    }
    arg.value_name(value)
}

/// What stands for the value of the name or the option with this id, and what it is for.
fn use_of(id: &str) -> (&'static str, &'static str) {
    for (name, value, text) in &USES {
        if *name == id {
            return (value, text);
        }
    }
    ("", "")
}

fn id_of(argument: Argument) -> &'static str {
    match argument {
        Argument::Name(id) => id,
        Argument::FurtherName(id) => id,
        Argument::NumberName(id, _, _) => id,
        Argument::FileOption(id) => id,
        Argument::NumberOption(id, _, _) => id,
        Argument::NeededNumber(id, _, _) => id,
        Argument::Flag(id) => id,
    }
}
