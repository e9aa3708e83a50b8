//! The texts that a batch names.
ghost use Rattle.std.specs.Prelude.{◌≡◌, ◌<◌, ◌-◌, ◌^◌, IfOk, OnErr};
ghost use Rattle.dp_words.specs.Values.{OptionsWithin};
ghost use Rattle.dp_words.specs.Run.{shown};
ghost use Rattle.dp_load.specs.Batches.{LoadsBatch, LoadsInputs};

use crate::list::{load_each, load_list};
use crate::load::{Loaded, load_program};
use crate::texts::load_given;
use dp_base::{NoMemory, Row};
use dp_edge::Shelf;
use dp_plan::Plan;
use dp_refusal::{Refusal, Role, role_of};
use dp_tree::Program;
use dp_words::RunWords;
use std::alloc::Global;

/// What a list and the inputs that it names give.
#[derive(Drop)]
pub enum Listed {
    /// The numbers of each input, in order.
    Inputs(Row<Row<i64>>),
    /// The list or an input is refused.
    Refused(Refusal),
    /// The list or an input couldn't be read.
    Failed(Role),
}

/// What the texts of a batch give.
#[derive(Drop)]
pub enum BatchTexts {
    /// A program, its inputs, and a plan for each of its regions.
    Run(Program, Row<Row<i64>>, Row<Plan>),
    /// One of them is refused.
    Refused(Refusal),
    /// One of them couldn't be read.
    Failed(Role),
}

/// The inputs of the list under a name. Each one is read, measured, counted and parsed before the next is read.
pub fn load_inputs<S: Shelf>(alloc: Global, shelf: &mut S, name: &str) -> Result<Listed, NoMemory>
    requires { S.faults shelf.old < 2 ^ 64 - 1 }
    ensures contents { S.contents shelf.new ≡ S.contents shelf.old }
    ensures loads { IfOk result (LoadsInputs (S.contents shelf.old) name.now (S.faults shelf.old) (S.faults shelf.new) (S.failed_names shelf.old)
        (S.failed_names shelf.new)) }
    ensures err { OnErr result ((S.faults shelf.new ≡ S.faults shelf.old) × (S.failed_names shelf.new ≡ S.failed_names shelf.old)) }
{
    match load_list(alloc, shelf, name)? {
        Loaded::Text(names) => load_each(alloc, shelf, names.as_slice()),
        Loaded::Refused(refusal) => Ok(Listed::Refused(refusal)),
        Loaded::Failed => Ok(Listed::Failed(Role::List)),
    }
}

/// The texts that a batch names: first the program, then the list with its inputs, and then the plans.
pub fn load_batch<S: Shelf>(
    alloc: Global,
    run: RunWords,
    list: &str,
    shelf: &mut S,
) -> Result<BatchTexts, NoMemory>
    requires options { OptionsWithin run.options }
    requires shelf { S.faults shelf.old < 2 ^ 64 - 1 }
    ensures contents { S.contents shelf.new ≡ S.contents shelf.old }
    ensures loads { IfOk result (LoadsBatch (S.contents shelf.old) (shown run.entry) list.now (S.faults shelf.old) (S.faults shelf.new)
        (S.failed_names shelf.old) (S.failed_names shelf.new)) }
    ensures err { OnErr result ((S.faults shelf.new ≡ S.faults shelf.old) × (S.failed_names shelf.new ≡ S.failed_names shelf.old)) }
{
    let program = match load_program(alloc, shelf, run.program)? {
        Loaded::Text(program) => program,
        Loaded::Refused(refusal) => return Ok(BatchTexts::Refused(refusal)),
        Loaded::Failed => return Ok(BatchTexts::Failed(Role::Program)),
    };
    let inputs = match load_inputs(alloc, shelf, list)? {
        Listed::Inputs(inputs) => inputs,
        Listed::Refused(refusal) => return Ok(BatchTexts::Refused(refusal)),
        Listed::Failed(role) => return Ok(BatchTexts::Failed(role)),
    };
    match load_given(alloc, shelf, run.source, run.options, &program)? {
        Loaded::Text(plans) => Ok(BatchTexts::Run(program, inputs, plans)),
        Loaded::Refused(refusal) => Ok(BatchTexts::Refused(refusal)),
        Loaded::Failed => Ok(BatchTexts::Failed(role_of(run.source))),
    }
}
