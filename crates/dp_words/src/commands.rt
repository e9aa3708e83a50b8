//! The commands of the verbs.
ghost use Rattle.std.specs.Prelude.{◌≡◌, IfOk, map};
ghost use Rattle.clap.specs.Words.{app_of};
ghost use Rattle.dp_words.specs.Commands.{verb_app};
ghost use Rattle.dp_words.specs.steps.Table.{IsTrueLine, rule_for, with_rules};
ghost use Rattle.dp_words.specs.steps.Verbs.{app_by};

use crate::arguments::{Argument, arg_of};
use crate::verb::Line;
use clap::Command;
use dp_base::NoMemory;
use std::alloc::Global;

/// The command of the line's verb.
pub fn command_of<'w>(alloc: Global, line: Line) -> Result<Command<'w>, NoMemory>
    requires { IsTrueLine line }
    ensures { IfOk result (λ command. app_of command ≡ app_by line.verb) }
{
    let command = with_all(alloc, verb_command(alloc, line.word), line.names)?;
    let command = with_all(alloc, command, line.options)?;
    with_all(alloc, command, line.further)
}

/// The command with these behind what it takes.
fn with_all<'w>(
    alloc: Global,
    mut command: Command<'w>,
    arguments: &[Argument],
) -> Result<Command<'w>, NoMemory>
    ensures { IfOk result (λ with. app_of with ≡ with_rules (app_of command.entry) (map rule_for arguments.now)) }
{
    for argument in arguments {
        command = command.arg(arg_of(alloc, *argument))?;
    }
    Ok(command)
}

/// A command that reads the words behind its verb.
fn verb_command<'w>(alloc: Global, verb: &'w str) -> Command<'w>
    ensures { app_of result ≡ verb_app verb.entry.now }
{
    Command::new(alloc, verb).no_binary_name(true)
}
