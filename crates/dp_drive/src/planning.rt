//! The automatic plans of a program, with what they rest on or without it.
ghost use Rattle.std.specs.Prelude.{◌≡◌, ◌<◌, ◌-◌, ◌^◌, ℕ, List, Ok, IfOk};
ghost use Rattle.std.specs.Option.{option_copied};
ghost use Rattle.dp_tree.specs.Inlined.{IsInlined};
ghost use Rattle.dp_edge.specs.Writing.{FaultsAfter};
ghost use Rattle.dp_words.specs.Words.{Asked, Asks};
ghost use Rattle.dp_words.specs.Values.{OptionsWithin};
ghost use Rattle.dp_words.specs.Planning.{shown_planning};
ghost use Rattle.dp_drive.specs.steps.Carried.{Carried};
ghost use Rattle.dp_drive.specs.steps.Listed.{ListsLeast, ListsPlans, PlanningText};
ghost use Rattle.dp_load.specs.Loading.{LoadsProgram};

use crate::writing::{fail_read, refuse};
use dp_base::{NoMemory, Row};
use dp_edge::{Shelf, Sink, WriteFail, write};
use dp_explain::explain;
use dp_load::{Loaded, automatic_plans, load_counts, load_program};
use dp_plan::Plan;
use dp_plan_text::write_plans;
use dp_profile::Profile;
use dp_refusal::Role;
use dp_tree::Program;
use dp_words::{PlanOptions, PlanWords};
use std::alloc::Global;

/// How plans are written.
#[derive(Clone, Copy)]
pub enum PlansText {
    /// As a text of plans.
    Bare,
    /// With what they rest on behind it.
    Explained,
}

/// The exit status of a program's automatic plans.
pub fn answer_plan<S: Shelf, K: Sink>(
    alloc: Global,
    plan: PlanWords,
    text: PlansText,
    shelf: &mut S,
    sink: &mut K,
) -> Result<u8, WriteFail>
    requires options { OptionsWithin plan.options }
    requires shelf { S.faults shelf.old < 2 ^ 64 - 1 }
    requires sink { K.faults sink.old < 2 ^ 64 - 1 }
    ensures contents { S.contents shelf.new ≡ S.contents shelf.old }
    ensures faults { FaultsAfter result (K.faults sink.old) (K.faults sink.new) }
    ensures carried { (words : List (List ℕ)) (asked : Asked) → ListsPlans text asked (shown_planning plan.entry) → Asks words asked →
        Carried words (S.contents shelf.old) (S.faults shelf.old) (S.faults shelf.new)
        (S.failed_names shelf.old) (S.failed_names shelf.new) (K.written sink.old) (K.written sink.new) result }
{
    match load_program(alloc, shelf, plan.program)? {
        Loaded::Text(program) => answer_least(alloc, plan, text, &program, shelf, sink),
        Loaded::Refused(refusal) => refuse(alloc, refusal, sink),
        Loaded::Failed => fail_read(alloc, Role::Program, sink),
    }
}

/// The exit status of plans whose program was read.
fn answer_least<S: Shelf, K: Sink>(
    alloc: Global,
    plan: PlanWords,
    text: PlansText,
    program: &Program,
    shelf: &mut S,
    sink: &mut K,
) -> Result<u8, WriteFail>
    requires inlined { IsInlined program.now }
    requires options { OptionsWithin plan.options }
    requires shelf { S.faults shelf.old < 2 ^ 64 - 1 }
    requires sink { K.faults sink.old < 2 ^ 64 - 1 }
    ensures contents { S.contents shelf.new ≡ S.contents shelf.old }
    ensures faults { FaultsAfter result (K.faults sink.old) (K.faults sink.new) }
    ensures carried { (words : List (List ℕ)) (asked : Asked) → ListsPlans text asked (shown_planning plan.entry) → Asks words asked →
        LoadsProgram (S.contents shelf.old) plan.entry.program.now (Ok program.now) →
        Carried words (S.contents shelf.old) (S.faults shelf.old) (S.faults shelf.new) (S.failed_names shelf.old) (S.failed_names shelf.new)
        (K.written sink.old) (K.written sink.new) result }
{
    match load_counts(alloc, shelf, plan.profile, program)? {
        Loaded::Text(profile) => {
            list_least(alloc, plan.options, text, profile.as_ref(), program, sink)
        }
        Loaded::Refused(refusal) => refuse(alloc, refusal, sink),
        Loaded::Failed => fail_read(alloc, Role::Profile, sink),
    }
}

/// Makes the least plans of the program's regions, by this profile, if there is one, and writes them.
fn list_least<K: Sink>(
    alloc: Global,
    options: PlanOptions,
    text: PlansText,
    profile: Option<&Profile>,
    program: &Program,
    sink: &mut K,
) -> Result<u8, WriteFail>
    requires inlined { IsInlined program.now }
    requires options { OptionsWithin options }
    requires sink { K.faults sink.old < 2 ^ 64 - 1 }
    ensures faults { FaultsAfter result (K.faults sink.old) (K.faults sink.new) }
    ensures lists { ListsLeast text program.now options (option_copied profile.entry) (K.written sink.old) (K.written sink.new) result }
{
    let plans = automatic_plans(alloc, program, profile, options)?;
    let written = text_of(
        alloc,
        text,
        plans.as_slice(),
        program,
        profile,
        options.rate,
    )?;
    write(written.as_slice(), sink)?;
    Ok(0)
}

/// The text of plans that were made by this profile, if there is one, at this rate.
fn text_of(
    alloc: Global,
    text: PlansText,
    plans: &[Plan],
    program: &Program,
    profile: Option<&Profile>,
    rate: u32,
) -> Result<Row<u8>, NoMemory>
    ensures { IfOk result (λ written. PlanningText text program.now (option_copied profile.entry) rate plans.now written) }
{
    match text {
        PlansText::Bare => write_plans(alloc, plans, program),
        PlansText::Explained => explain(alloc, plans, program, profile, rate),
    }
}
