//! The matches of a command on its words.
ghost use Rattle.std.specs.Prelude.{map, string_bytes, IfOk, IfSome, IfNone};
ghost use Rattle.clap.specs.Words.{app_of};
ghost use Rattle.dp_words.specs.Commands.{CommandTakes};
ghost use Rattle.dp_words.specs.steps.Numbers.{TakesNumbers};
ghost use Rattle.dp_words.specs.steps.Reading.{Finds, values_of};

use clap::error::ErrorKind;
use clap::{ArgMatches, Command};
use dp_base::NoMemory;

/// What the command finds in the words, if it takes them.
pub fn found<'w>(
    command: Command<'w>,
    words: &'w [String],
) -> Result<Option<ArgMatches<'w>>, NoMemory>
    requires numbers { TakesNumbers (app_of command) }
    ensures some { IfOk result (λ found. IfSome found (λ matches. Finds (app_of command.entry) (map string_bytes words.entry.now) (values_of matches))) }
    ensures none { IfOk result (λ found. IfNone found (¬ CommandTakes (app_of command.entry) (map string_bytes words.entry.now))) }
{
    match command.try_get_matches_from(words) {
        Ok(matches) => Ok(Some(matches)),
        Err(error) => {
            if matches!(error.kind(), ErrorKind::OutOfMemory) {
                Err(NoMemory)
            } else {
                Ok(None)
            }
        }
    }
}
