//! Runs that are saved before an iteration, and gone on with.
ghost use Rattle.std.specs.Prelude.{◌≡◌, ◌<◌, ◌-◌, ◌^◌, ℕ, List};
ghost use Rattle.dp_edge.specs.Writing.{FaultsAfter};
ghost use Rattle.dp_words.specs.Words.{Asks, ToResume, ToSave};
ghost use Rattle.dp_words.specs.Run.{RunWithin, shown};
ghost use Rattle.dp_words.specs.Saving.{PlaceWithin};
ghost use Rattle.dp_save.specs.Fits.{Fits};
ghost use Rattle.dp_resume.specs.Saved.{saved_bytes, saved_end};
ghost use Rattle.dp_resume.specs.Resumed.{resumed_bytes, resumed_run};
ghost use Rattle.dp_drive.specs.steps.Carried.{Carried, Finishes};
ghost use Rattle.dp_drive.specs.steps.Given.{MayRun, WereLoaded};
ghost use Rattle.dp_drive.specs.steps.Saved.{status_at};
ghost use Rattle.dp_refusal.specs.Refusal.{exit_status};

use crate::logging::size_of;
use crate::others::run_plans;
use crate::texts::{RunTexts, may_choose};
use crate::writing::{fail_read, refuse};
use dp_edge::{Gate, Shelf, Sink, WriteFail};
use dp_load::{Loaded, Texts, load_checkpoint, load_texts};
use dp_refusal::{Role, end_status};
use dp_resume::{SaveEnd, SavePlace, resume_program, save_program};
use dp_run::{PreparedProgram, Tally, Unwatched};
use dp_save::Checkpoint;
use dp_words::{Place, RunWords};
use std::alloc::Global;
use std::sync::Wait;
use std::thread::Threads;
use std::time::Clock;

/// The exit status of a run that is to be saved.
pub fn answer_save<R: Threads + Wait + Clock + Sync, S: Shelf, K: Sink, G: Gate>(
    rt: &R,
    alloc: Global,
    run: RunWords,
    place: Place,
    shelf: &mut S,
    sink: &mut K,
    gate: &G,
) -> Result<u8, WriteFail>
    requires run { RunWithin (shown run) }
    requires place { PlaceWithin place }
    requires shelf { S.faults shelf.old < 2 ^ 64 - 1 }
    requires sink { K.faults sink.old < 2 ^ 64 - 1 }
    ensures contents { S.contents shelf.new ≡ S.contents shelf.old }
    ensures faults { FaultsAfter result (K.faults sink.old) (K.faults sink.new) }
    ensures carried { (words : List (List ℕ)) → Asks words (ToSave (shown run.entry) place) → Carried words (S.contents shelf.old) (S.faults shelf.old)
        (S.faults shelf.new)
        (S.failed_names shelf.old) (S.failed_names shelf.new) (K.written sink.old) (K.written sink.new) result }
{
    match load_texts(alloc, run, shelf)? {
        Texts::Run(program, input, plans) => {
            let texts = RunTexts {
                run,
                program: &program,
                input: &input,
                plans: &plans,
            };
            save_at(rt, alloc, texts, place, sink, gate)
        }
        Texts::Refused(refusal) => refuse(alloc, refusal, sink),
        Texts::Failed(role) => fail_read(alloc, role, sink),
    }
}

/// Runs up to the place, and gives the status.
fn save_at<R: Threads + Wait + Clock + Sync, K: Sink, G: Gate>(
    rt: &R,
    alloc: Global,
    texts: RunTexts,
    place: Place,
    sink: &mut K,
    gate: &G,
) -> Result<u8, WriteFail>
    requires may { MayRun (shown texts.run) texts.program.now texts.input.now texts.plans.now }
    requires place { PlaceWithin place }
    requires sink { K.faults sink.old < 2 ^ 64 - 1 }
    ensures faults { FaultsAfter result (K.faults sink.old) (K.faults sink.new) }
    ensures finishes { Finishes (status_at (saved_end texts.entry.program.now texts.entry.input.now texts.entry.run.fuel place.region place.after))
        (saved_bytes texts.entry.program.now texts.entry.plans.now texts.entry.input.now texts.entry.run.fuel place.region place.after) (K.written sink.old)
        (K.written sink.new) result }
{
    let place = SavePlace {
        region: place.region,
        after: place.after,
    };
    let plans = texts.plans.as_slice();
    let others = run_plans(alloc, texts.program, plans, may_choose(texts.run))?;
    let prepared = PreparedProgram::new(alloc, texts.program, plans, &others)?;
    let end = save_program(
        rt,
        alloc,
        &prepared,
        texts.input.as_slice(),
        texts.run.fuel,
        size_of(texts.run),
        place,
        sink,
        gate,
    )?;
    match end {
        SaveEnd::Saved => Ok(0),
        SaveEnd::Ran(end) => Ok(end_status(end)),
    }
}

/// The exit status of a run that goes on.
pub fn answer_resume<R: Threads + Wait + Clock + Sync, S: Shelf, K: Sink, G: Gate>(
    rt: &R,
    alloc: Global,
    run: RunWords,
    checkpoint: &str,
    shelf: &mut S,
    sink: &mut K,
    gate: &G,
) -> Result<u8, WriteFail>
    requires run { RunWithin (shown run) }
    requires shelf { S.faults shelf.old < 2 ^ 64 - 1 }
    requires sink { K.faults sink.old < 2 ^ 64 - 1 }
    ensures contents { S.contents shelf.new ≡ S.contents shelf.old }
    ensures faults { FaultsAfter result (K.faults sink.old) (K.faults sink.new) }
    ensures carried { (words : List (List ℕ)) → Asks words (ToResume (shown run.entry) checkpoint.now) →
        Carried words (S.contents shelf.old) (S.faults shelf.old) (S.faults shelf.new)
        (S.failed_names shelf.old) (S.failed_names shelf.new) (K.written sink.old) (K.written sink.new) result }
{
    match load_texts(alloc, run, shelf)? {
        Texts::Run(program, input, plans) => {
            let texts = RunTexts {
                run,
                program: &program,
                input: &input,
                plans: &plans,
            };
            answer_checkpoint(rt, alloc, texts, checkpoint, shelf, sink, gate)
        }
        Texts::Refused(refusal) => refuse(alloc, refusal, sink),
        Texts::Failed(role) => fail_read(alloc, role, sink),
    }
}

/// The same, where the run's texts were read: the checkpoint is the last one.
fn answer_checkpoint<R: Threads + Wait + Clock + Sync, S: Shelf, K: Sink, G: Gate>(
    rt: &R,
    alloc: Global,
    texts: RunTexts,
    name: &str,
    shelf: &mut S,
    sink: &mut K,
    gate: &G,
) -> Result<u8, WriteFail>
    requires may { MayRun (shown texts.run) texts.program.now texts.input.now texts.plans.now }
    requires shelf { S.faults shelf.old < 2 ^ 64 - 1 }
    requires sink { K.faults sink.old < 2 ^ 64 - 1 }
    ensures contents { S.contents shelf.new ≡ S.contents shelf.old }
    ensures faults { FaultsAfter result (K.faults sink.old) (K.faults sink.new) }
    ensures carried { (words : List (List ℕ)) → Asks words (ToResume (shown texts.entry.run) name.now) →
        WereLoaded (S.contents shelf.old) (shown texts.entry.run) (S.faults shelf.old) (S.failed_names shelf.old) texts.entry.program.now texts.entry.input.now
        texts.entry.plans.now →
        Carried words (S.contents shelf.old) (S.faults shelf.old) (S.faults shelf.new) (S.failed_names shelf.old) (S.failed_names shelf.new)
        (K.written sink.old) (K.written sink.new) result }
{
    match load_checkpoint(alloc, shelf, name, texts.program)? {
        Loaded::Text(checkpoint) => resume_at(rt, alloc, texts, checkpoint, sink, gate),
        Loaded::Refused(refusal) => refuse(alloc, refusal, sink),
        Loaded::Failed => fail_read(alloc, Role::Checkpoint, sink),
    }
}

/// Goes on from the checkpoint, and gives the status of the end.
fn resume_at<R: Threads + Wait + Clock + Sync, K: Sink, G: Gate>(
    rt: &R,
    alloc: Global,
    texts: RunTexts,
    checkpoint: Checkpoint,
    sink: &mut K,
    gate: &G,
) -> Result<u8, WriteFail>
    requires may { MayRun (shown texts.run) texts.program.now texts.input.now texts.plans.now }
    requires fits { Fits texts.program.now checkpoint }
    requires sink { K.faults sink.old < 2 ^ 64 - 1 }
    ensures faults { FaultsAfter result (K.faults sink.old) (K.faults sink.new) }
    ensures finishes { Finishes (exit_status (resumed_run texts.entry.program.now texts.entry.input.now checkpoint).end)
        (resumed_bytes texts.entry.program.now texts.entry.plans.now texts.entry.input.now checkpoint) (K.written sink.old) (K.written sink.new) result }
{
    let plans = texts.plans.as_slice();
    let others = run_plans(alloc, texts.program, plans, may_choose(texts.run))?;
    let prepared = PreparedProgram::new(alloc, texts.program, plans, &others)?;
    let mut tally = Tally::new(Unwatched);
    let end = resume_program(
        rt,
        alloc,
        &prepared,
        texts.input.as_slice(),
        size_of(texts.run),
        checkpoint,
        sink,
        gate,
        &mut tally,
    )?;
    Ok(end_status(end))
}
