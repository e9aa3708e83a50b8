//! The log of a run.
ghost use Rattle.std.specs.Prelude.{◌≡◌, ◌<◌, ◌-◌, ◌^◌, ℕ, List, true};
ghost use Rattle.dp_edge.specs.Writing.{FaultsAfter};
ghost use Rattle.dp_log.specs.LogText.{log_bytes};
ghost use Rattle.dp_run.specs.RunText.{source_run};
ghost use Rattle.dp_words.specs.Words.{Asks, ToLog};
ghost use Rattle.dp_words.specs.Run.{RunWithin, shown};
ghost use Rattle.dp_drive.specs.steps.Carried.{Carried, Finishes};
ghost use Rattle.dp_drive.specs.steps.Given.{MayRun};
ghost use Rattle.dp_refusal.specs.Refusal.{exit_status};

use crate::others::run_plans;
use crate::texts::RunTexts;
use crate::writing::{fail_read, refuse};
use dp_edge::{Shelf, Sink, WriteFail};
use dp_load::{Texts, load_texts};
use dp_logging::{LogOptions, log_program};
use dp_refusal::end_status;
use dp_run::{CrewSize, PreparedProgram};
use dp_words::RunWords;
use std::alloc::Global;
use std::sync::Wait;
use std::time::Clock;

/// The exit status of a run whose log is written.
pub fn answer_log<R: Wait + Clock, S: Shelf, K: Sink>(
    rt: &R,
    alloc: Global,
    run: RunWords,
    shelf: &mut S,
    sink: &mut K,
) -> Result<u8, WriteFail>
    requires run { RunWithin (shown run) }
    requires shelf { S.faults shelf.old < 2 ^ 64 - 1 }
    requires sink { K.faults sink.old < 2 ^ 64 - 1 }
    ensures contents { S.contents shelf.new ≡ S.contents shelf.old }
    ensures faults { FaultsAfter result (K.faults sink.old) (K.faults sink.new) }
    ensures carried { (words : List (List ℕ)) → Asks words (ToLog (shown run.entry)) → Carried words (S.contents shelf.old) (S.faults shelf.old)
        (S.faults shelf.new)
        (S.failed_names shelf.old) (S.failed_names shelf.new) (K.written sink.old) (K.written sink.new) result }
{
    match load_texts(alloc, run, shelf)? {
        Texts::Run(program, input, plans) => {
            let texts = RunTexts {
                run,
                program: &program,
                input: &input,
                plans: &plans,
            };
            write_log(rt, alloc, texts, sink)
        }
        Texts::Refused(refusal) => refuse(alloc, refusal, sink),
        Texts::Failed(role) => fail_read(alloc, role, sink),
    }
}

/// Writes the log of the run, and gives the status of its end.
fn write_log<R: Wait + Clock, K: Sink>(
    rt: &R,
    alloc: Global,
    texts: RunTexts,
    sink: &mut K,
) -> Result<u8, WriteFail>
    requires may { MayRun (shown texts.run) texts.program.now texts.input.now texts.plans.now }
    requires sink { K.faults sink.old < 2 ^ 64 - 1 }
    ensures faults { FaultsAfter result (K.faults sink.old) (K.faults sink.new) }
    ensures finishes { let source = source_run texts.entry.program.now texts.entry.input.now texts.entry.run.fuel in
        Finishes (exit_status source.end) (log_bytes texts.entry.program.now texts.entry.plans.now source) (K.written sink.old) (K.written sink.new) result }
{
    let options = LogOptions {
        fuel: texts.run.fuel,
        size: size_of(texts.run),
    };
    let plans = texts.plans.as_slice();
    let input = texts.input.as_slice();
    let others = run_plans(alloc, texts.program, plans, false)?;
    let prepared = PreparedProgram::new(alloc, texts.program, plans, &others)?;
    let end = log_program(rt, alloc, &prepared, input, options, sink)?;
    Ok(end_status(end))
}

/// The workers of a replicated stage, and the places of a lane.
pub fn size_of(run: RunWords) -> CrewSize
    requires { RunWithin (shown run) }
    ensures { (result.workers ≡ run.entry.options.workers) × (result.lane ≡ run.entry.lane) × (result.threads ≡ true) }
{
    CrewSize::new(run.options.workers, run.lane, true)
}
