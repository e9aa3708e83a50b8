//! The words, read by their verb.
ghost use Rattle.std.specs.Prelude.{◌∷◌, map, string_bytes, IfOk, IfSome, IfNone};
ghost use Rattle.dp_words.specs.Words.{Asks, AsksNothing, IsWithin, asked_by};
ghost use Rattle.dp_words.specs.steps.Table.{IsTrueLine};
ghost use Rattle.dp_words.specs.steps.Verbs.{Answers, verb_name};

use crate::commands::command_of;
use crate::parsing::found;
use crate::task::Task;
use crate::tasks::task_in;
use crate::verb::{Line, verb_line};
use dp_base::NoMemory;
use std::alloc::Global;

/// What the words ask for, if they are taken.
pub fn asked(alloc: Global, words: &[String]) -> Result<Option<Task<'_>>, NoMemory>
    ensures some { IfOk result (λ task. IfSome task (λ t. Asks (map string_bytes words.now) (asked_by t))) }
    ensures within { IfOk result (λ task. IfSome task IsWithin) }
    ensures none { IfOk result (λ task. IfNone task (AsksNothing (map string_bytes words.now))) }
{
    let Some((verb, rest)) = words.split_first() else {
        return Ok(None);
    };
    match verb_line(verb.as_str()) {
        Some(line) => asked_by(alloc, line, rest),
        None => Ok(None),
    }
}

/// What the words behind the line's verb ask for.
fn asked_by(alloc: Global, line: Line, words: &[String]) -> Result<Option<Task<'_>>, NoMemory>
    requires { IsTrueLine line }
    ensures { IfOk result (Answers (verb_name line.verb ∷ map string_bytes words.now)) }
{
    match found(command_of(alloc, line)?, words)? {
        Some(matches) => Ok(task_in(line.verb, &matches)),
        None => Ok(None),
    }
}
