//! One program on many inputs.
ghost use Rattle.std.specs.Prelude.{◌≡◌, ◌<◌, ◌≤◌, ◌-◌, ◌^◌, ℕ, List, All, length};
ghost use Rattle.dp_batch.specs.BatchText.{batch_bytes};
ghost use Rattle.dp_edge.specs.Writing.{FaultsAfter};
ghost use Rattle.dp_run.specs.Given.{AreGiven};
ghost use Rattle.dp_words.specs.Words.{Asks, ToBatch};
ghost use Rattle.dp_words.specs.Run.{RunWithin, shown};
ghost use Rattle.dp_drive.specs.steps.Carried.{Carried, Finishes};

use crate::logging::size_of;
use crate::others::run_plans;
use crate::texts::may_choose;
use crate::writing::{fail_read, refuse};
use dp_base::Row;
use dp_batch::batch;
use dp_edge::{Shelf, Sink, WriteFail, write};
use dp_load::{BatchTexts, load_batch};
use dp_plan::Plan;
use dp_run::PreparedProgram;
use dp_tree::Program;
use dp_words::RunWords;
use std::alloc::Global;
use std::sync::Wait;
use std::thread::Threads;
use std::time::Clock;

/// The exit status of a batch.
pub fn answer_batch<R: Threads + Wait + Clock + Sync, S: Shelf, K: Sink>(
    rt: &R,
    alloc: Global,
    run: RunWords,
    list: &str,
    shelf: &mut S,
    sink: &mut K,
) -> Result<u8, WriteFail>
    requires run { RunWithin (shown run) }
    requires shelf { S.faults shelf.old < 2 ^ 64 - 1 }
    requires sink { K.faults sink.old < 2 ^ 64 - 1 }
    ensures contents { S.contents shelf.new ≡ S.contents shelf.old }
    ensures faults { FaultsAfter result (K.faults sink.old) (K.faults sink.new) }
    ensures carried { (words : List (List ℕ)) → Asks words (ToBatch (shown run.entry) list.now) → Carried words (S.contents shelf.old) (S.faults shelf.old)
        (S.faults shelf.new)
        (S.failed_names shelf.old) (S.failed_names shelf.new) (K.written sink.old) (K.written sink.new) result }
{
    match load_batch(alloc, run, list, shelf)? {
        BatchTexts::Run(program, inputs, plans) => {
            run_each(rt, alloc, &program, &plans, &inputs, run, sink)
        }
        BatchTexts::Refused(refusal) => refuse(alloc, refusal, sink),
        BatchTexts::Failed(role) => fail_read(alloc, role, sink),
    }
}

/// Runs the program on each of the inputs, and writes the texts.
fn run_each<R: Threads + Wait + Clock + Sync, K: Sink>(
    rt: &R,
    alloc: Global,
    program: &Program,
    plans: &Row<Plan>,
    inputs: &Row<Row<i64>>,
    run: RunWords,
    sink: &mut K,
) -> Result<u8, WriteFail>
    requires run { RunWithin (shown run) }
    requires given { AreGiven program.now plans.now }
    requires words { All (λ input. length input ≤ 65536) inputs.now }
    requires sink { K.faults sink.old < 2 ^ 64 - 1 }
    ensures faults { FaultsAfter result (K.faults sink.old) (K.faults sink.new) }
    ensures finishes { Finishes 0 (batch_bytes program.now plans.now run.entry.fuel inputs.now) (K.written sink.old) (K.written sink.new) result }
{
    let plans = plans.as_slice();
    let inputs = inputs.as_slice();
    let others = run_plans(alloc, program, plans, may_choose(run))?;
    let prepared = PreparedProgram::new(alloc, program, plans, &others)?;
    let text = batch(rt, alloc, &prepared, inputs, run.fuel, size_of(run))?;
    write(text.as_slice(), sink)?;
    Ok(0)
}
