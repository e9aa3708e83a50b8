//! The texts that a run names.
ghost use Rattle.std.specs.Prelude.{◌≡◌, ◌<◌, ◌-◌, ◌^◌, IfOk, OnErr};
ghost use Rattle.std.specs.Option.{option_map};
ghost use Rattle.dp_tree.specs.Inlined.{IsInlined};
ghost use Rattle.dp_plan.specs.GivenPlans.{ArePlans};
ghost use Rattle.dp_words.specs.Values.{OptionsWithin};
ghost use Rattle.dp_words.specs.Run.{shown, shown_source};
ghost use Rattle.dp_load.specs.Roles.{Input, Plans, source_name};
ghost use Rattle.dp_load.specs.Loading.{GivesLoaded, IfText};
ghost use Rattle.dp_load.specs.Texts.{LoadsTexts};

use crate::load::{Loaded, load_input, load_plans, load_program};
use crate::planning::load_least;
use dp_base::{NoMemory, Row};
use dp_edge::Shelf;
use dp_plan::Plan;
use dp_refusal::{Refusal, Role, role_of};
use dp_tree::Program;
use dp_words::{PlanOptions, PlanSource, RunWords};
use std::alloc::Global;

/// What the texts of a run give.
#[derive(Drop)]
pub enum Texts {
    /// A program, its input, and a plan for each of its regions.
    Run(Program, Row<i64>, Row<Plan>),
    /// One of them is refused.
    Refused(Refusal),
    /// One of them couldn't be read.
    Failed(Role),
}

/// The texts that a run names: first the program, then the input, and then the plans.
pub fn load_texts<S: Shelf>(alloc: Global, run: RunWords, shelf: &mut S) -> Result<Texts, NoMemory>
    requires options { OptionsWithin run.options }
    requires shelf { S.faults shelf.old < 2 ^ 64 - 1 }
    ensures contents { S.contents shelf.new ≡ S.contents shelf.old }
    ensures loads { IfOk result (LoadsTexts (S.contents shelf.old) (shown run.entry) (S.faults shelf.old) (S.faults shelf.new) (S.failed_names shelf.old)
        (S.failed_names shelf.new)) }
    ensures err { OnErr result ((S.faults shelf.new ≡ S.faults shelf.old) × (S.failed_names shelf.new ≡ S.failed_names shelf.old)) }
{
    let program = match load_program(alloc, shelf, run.program)? {
        Loaded::Text(program) => program,
        Loaded::Refused(refusal) => return Ok(Texts::Refused(refusal)),
        Loaded::Failed => return Ok(Texts::Failed(Role::Program)),
    };
    let input = match load_words(alloc, shelf, run.input)? {
        Loaded::Text(input) => input,
        Loaded::Refused(refusal) => return Ok(Texts::Refused(refusal)),
        Loaded::Failed => return Ok(Texts::Failed(Role::Input)),
    };
    match load_given(alloc, shelf, run.source, run.options, &program)? {
        Loaded::Text(plans) => Ok(Texts::Run(program, input, plans)),
        Loaded::Refused(refusal) => Ok(Texts::Refused(refusal)),
        Loaded::Failed => Ok(Texts::Failed(role_of(run.source))),
    }
}

/// The input under a name, if there is one: else no numbers.
pub fn load_words<S: Shelf>(
    alloc: Global,
    shelf: &mut S,
    name: Option<&str>,
) -> Result<Loaded<Row<i64>>, NoMemory>
    requires { S.faults shelf.old < 2 ^ 64 - 1 }
    ensures contents { S.contents shelf.new ≡ S.contents shelf.old }
    ensures gives { IfOk result (GivesLoaded (Input (S.contents shelf.old) (option_map (λ n. n.now) name.entry)) (option_map (λ n. n.now) name.entry)
        (S.faults shelf.old) (S.faults shelf.new) (S.failed_names shelf.old) (S.failed_names shelf.new)) }
    ensures err { OnErr result ((S.faults shelf.new ≡ S.faults shelf.old) × (S.failed_names shelf.new ≡ S.failed_names shelf.old)) }
{
    match name {
        Some(name) => load_input(alloc, shelf, name),
        None => Ok(Loaded::Text(Row::new(alloc))),
    }
}

/// The plans under a name, or the least ones.
pub fn load_given<S: Shelf>(
    alloc: Global,
    shelf: &mut S,
    source: PlanSource<'_>,
    options: PlanOptions,
    program: &Program,
) -> Result<Loaded<Row<Plan>>, NoMemory>
    requires shelf { S.faults shelf.old < 2 ^ 64 - 1 }
    requires inlined { IsInlined program.now }
    requires options { OptionsWithin options }
    ensures contents { S.contents shelf.new ≡ S.contents shelf.old }
    ensures gives { IfOk result (GivesLoaded (Plans (S.contents shelf.old) program.now options (shown_source source.entry))
        (source_name (shown_source source.entry)) (S.faults shelf.old) (S.faults shelf.new) (S.failed_names shelf.old) (S.failed_names shelf.new)) }
    ensures fit { IfOk result (IfText (ArePlans program.now)) }
    ensures err { OnErr result ((S.faults shelf.new ≡ S.faults shelf.old) × (S.failed_names shelf.new ≡ S.failed_names shelf.old)) }
{
    match source {
        PlanSource::Named(name) => load_plans(alloc, shelf, name, program),
        PlanSource::Least(profile) => load_least(alloc, shelf, profile, options, program),
    }
}
