//! The task that the matches of a verb's words ask for.
ghost use Rattle.dp_words.specs.steps.Reading.{HoldsNumbers, values_of};
ghost use Rattle.dp_words.specs.steps.Verbs.{Tells};

use crate::reading::{gen_words, named_run, plan_words, profile_words, run_words, saving_words};
use crate::task::Task;
use crate::verb::Verb;
use clap::ArgMatches;

/// What the matches of this verb's words ask for.
pub fn task_in<'w>(verb: Verb, matches: &ArgMatches<'w>) -> Option<Task<'w>>
    requires numbers { HoldsNumbers (values_of matches.now) }
    ensures { Tells verb (values_of matches.now) result }
{
    match verb {
        Verb::Run => run_words(matches).map(Task::Run),
        Verb::Plan => plan_words(matches).map(Task::Plan),
        Verb::Explain => plan_words(matches).map(Task::Explain),
        Verb::Check => matches.get_str("program").map(Task::Check),
        Verb::Tree => matches.get_str("program").map(Task::Tree),
        Verb::Profile => profile_words(matches).map(Task::Profile),
        Verb::Gen => made(matches),
        Verb::Log => run_words(matches).map(Task::Log),
        Verb::Audit => audit(matches),
        Verb::Save => save(matches),
        Verb::Resume => resume(matches),
        Verb::Batch => batch(matches),
    }
}

fn made<'w>(matches: &ArgMatches<'w>) -> Option<Task<'w>>
    requires numbers { HoldsNumbers (values_of matches.now) }
    ensures { Tells Verb.Gen (values_of matches.now) result }
{
    match gen_words(matches) {
        Some(made) => Some(Task::Gen(made)),
        None => None,
    }
}

fn audit<'w>(matches: &ArgMatches<'w>) -> Option<Task<'w>>
    requires numbers { HoldsNumbers (values_of matches.now) }
    ensures { Tells Verb.Audit (values_of matches.now) result }
{
    match named_run(matches, "log") {
        Some((run, log)) => Some(Task::Audit(run, log)),
        None => None,
    }
}

fn save<'w>(matches: &ArgMatches<'w>) -> Option<Task<'w>>
    requires numbers { HoldsNumbers (values_of matches.now) }
    ensures { Tells Verb.Save (values_of matches.now) result }
{
    match saving_words(matches) {
        Some((run, place)) => Some(Task::Save(run, place)),
        None => None,
    }
}

fn resume<'w>(matches: &ArgMatches<'w>) -> Option<Task<'w>>
    requires numbers { HoldsNumbers (values_of matches.now) }
    ensures { Tells Verb.Resume (values_of matches.now) result }
{
    match named_run(matches, "checkpoint") {
        Some((run, checkpoint)) => Some(Task::Resume(run, checkpoint)),
        None => None,
    }
}

fn batch<'w>(matches: &ArgMatches<'w>) -> Option<Task<'w>>
    requires numbers { HoldsNumbers (values_of matches.now) }
    ensures { Tells Verb.Batch (values_of matches.now) result }
{
    match named_run(matches, "list") {
        Some((run, list)) => Some(Task::Batch(run, list)),
        None => None,
    }
}
