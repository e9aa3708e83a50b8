//! A profile of a program's run.
ghost use Rattle.std.specs.Prelude.{◌≡◌, ◌<◌, ◌-◌, ◌^◌, ℕ, List, Ok};
ghost use Rattle.dp_tree.specs.Inlined.{IsInlined};
ghost use Rattle.dp_profile.specs.Observed.{observed};
ghost use Rattle.dp_edge.specs.Writing.{FaultsAfter};
ghost use Rattle.dp_profile_text.specs.WrittenText.{profile_text};
ghost use Rattle.dp_words.specs.Words.{Asks, ToProfile};
ghost use Rattle.dp_words.specs.Profiling.{shown_profiling};
ghost use Rattle.dp_drive.specs.steps.Carried.{Carried, Finishes};
ghost use Rattle.dp_load.specs.Loading.{LoadsProgram};
ghost use Rattle.dp_refusal.specs.Refusal.{exit_status};

use crate::writing::{fail_read, refuse};
use dp_base::Row;
use dp_edge::{Shelf, Sink, WriteFail, write};
use dp_load::{Loaded, load_program, load_words};
use dp_observe::observe;
use dp_profile_text::write_profile;
use dp_refusal::{Role, end_status};
use dp_tree::Program;
use dp_words::ProfileWords;
use std::alloc::Global;

/// The exit status of a profile: that of the run that shows it.
pub fn answer_profile<S: Shelf, K: Sink>(
    alloc: Global,
    profile: ProfileWords,
    shelf: &mut S,
    sink: &mut K,
) -> Result<u8, WriteFail>
    requires shelf { S.faults shelf.old < 2 ^ 64 - 1 }
    requires sink { K.faults sink.old < 2 ^ 64 - 1 }
    ensures contents { S.contents shelf.new ≡ S.contents shelf.old }
    ensures faults { FaultsAfter result (K.faults sink.old) (K.faults sink.new) }
    ensures carried { (words : List (List ℕ)) → Asks words (ToProfile (shown_profiling profile.entry)) →
        Carried words (S.contents shelf.old) (S.faults shelf.old) (S.faults shelf.new)
        (S.failed_names shelf.old) (S.failed_names shelf.new) (K.written sink.old) (K.written sink.new) result }
{
    match load_program(alloc, shelf, profile.program)? {
        Loaded::Text(program) => answer_input(alloc, profile, &program, shelf, sink),
        Loaded::Refused(refusal) => refuse(alloc, refusal, sink),
        Loaded::Failed => fail_read(alloc, Role::Program, sink),
    }
}

/// The exit status of a profile whose program was read.
fn answer_input<S: Shelf, K: Sink>(
    alloc: Global,
    profile: ProfileWords,
    program: &Program,
    shelf: &mut S,
    sink: &mut K,
) -> Result<u8, WriteFail>
    requires inlined { IsInlined program.now }
    requires shelf { S.faults shelf.old < 2 ^ 64 - 1 }
    requires sink { K.faults sink.old < 2 ^ 64 - 1 }
    ensures contents { S.contents shelf.new ≡ S.contents shelf.old }
    ensures faults { FaultsAfter result (K.faults sink.old) (K.faults sink.new) }
    ensures carried { (words : List (List ℕ)) → Asks words (ToProfile (shown_profiling profile.entry)) →
        LoadsProgram (S.contents shelf.old) profile.entry.program.now (Ok program.now) →
        Carried words (S.contents shelf.old) (S.faults shelf.old) (S.faults shelf.new) (S.failed_names shelf.old) (S.failed_names shelf.new)
        (K.written sink.old) (K.written sink.new) result }
{
    match load_words(alloc, shelf, profile.input)? {
        Loaded::Text(input) => show_run(alloc, program, &input, profile.fuel, sink),
        Loaded::Refused(refusal) => refuse(alloc, refusal, sink),
        Loaded::Failed => fail_read(alloc, Role::Input, sink),
    }
}

/// Runs the program step by step, and writes what that shows.
fn show_run<K: Sink>(
    alloc: Global,
    program: &Program,
    input: &Row<i64>,
    fuel: u64,
    sink: &mut K,
) -> Result<u8, WriteFail>
    requires inlined { IsInlined program.now }
    requires sink { K.faults sink.old < 2 ^ 64 - 1 }
    ensures faults { FaultsAfter result (K.faults sink.old) (K.faults sink.new) }
    ensures finishes { let shown = observed program.now input.now fuel in
        Finishes (exit_status shown.end) (profile_text program.now shown.profile) (K.written sink.old) (K.written sink.new) result }
{
    let shown = observe(alloc, program, input.as_slice(), fuel)?;
    let text = write_profile(alloc, &shown.profile, program)?;
    write(text.as_slice(), sink)?;
    Ok(end_status(shown.end))
}
