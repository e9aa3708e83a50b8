//! The whole program: from its words to what is written and the exit status.
ghost use Rattle.std.specs.Prelude.{◌≡◌, ◌<◌, ◌-◌, ◌^◌, ℕ, List, map, string_bytes, true, IfOk};
ghost use Rattle.dp_edge.specs.Writing.{FaultsAfter};
ghost use Rattle.dp_words.specs.Words.{Asks, ToRun};
ghost use Rattle.dp_words.specs.Run.{RunWithin, shown};
ghost use Rattle.dp_drive.specs.Headline.{Drives, IsCounted};
ghost use Rattle.dp_drive.specs.steps.Carried.{Carried};
ghost use Rattle.dp_drive.specs.steps.Status.{status_after};

use crate::auditing::answer_audit;
use crate::batching::answer_batch;
use crate::listing::{Listing, answer_program};
use crate::logging::{answer_log, size_of};
use crate::made::answer_gen;
use crate::planning::{PlansText, answer_plan};
use crate::profiling::answer_profile;
use crate::running::run_to_end;
use crate::saving::{answer_resume, answer_save};
use crate::texts::may_choose;
use crate::writing::{fail_read, refuse};
use dp_edge::{Gate, Shelf, Sink, WriteFail};
use dp_load::{Texts, load_texts};
use dp_refusal::Refusal;
use dp_run::{NativeCode, RunOptions, Tally, Watch};
use dp_words::{RunWords, Task, asked};
use std::alloc::Global;
use std::sync::Wait;
use std::thread::Threads;
use std::time::Clock;

/// Does all that the program does, and answers its exit status.
///
/// The words are those after the program's name. Texts are read from the shelf, and everything is written to the sink;
/// the gate is passed by the stages that run in threads. The tally counts the iterations that are committed from a
/// pipeline. Native code goes on with the plain parts of a run; the answer is the same with any.
pub fn drive<R: Threads + Wait + Clock + Sync, N: NativeCode, S: Shelf, K: Sink, G: Gate, W: Watch>(
    rt: &R,
    alloc: Global,
    native: &N,
    words: &[String],
    shelf: &mut S,
    sink: &mut K,
    gate: &G,
    tally: &mut Tally<W>,
) -> u8
    requires shelf { S.faults shelf.old < 2 ^ 64 - 1 }
    requires sink { K.faults sink.old < 2 ^ 64 - 1 }
    requires tally { tally.old < 2 ^ 63 }

    // From the outside before to the outside after: the answer to the words, or what a failed read or write leaves of it.
    ensures drives { Drives (map string_bytes words.now)
        (record {
          contents = S.contents shelf.old;
          failed_reads = S.faults shelf.old;
          failed_names = S.failed_names shelf.old;
          written = K.written sink.old;
          failed_writes = K.faults sink.old;
        })
        (record {
          contents = S.contents shelf.new;
          failed_reads = S.faults shelf.new;
          failed_names = S.failed_names shelf.new;
          written = K.written sink.new;
          failed_writes = K.faults sink.new;
        })
        result }

    // A run that was answered: the tally grew by the iterations that regions began, less those that were executed again.
    ensures counted { IsCounted (map string_bytes words.now) (S.contents shelf.old) tally.old tally.new result }
{
    final_status(answer(rt, alloc, native, words, shelf, sink, gate, tally))
}

/// The exit status of what was finished or stopped.
fn final_status(answered: Result<u8, WriteFail>) -> u8
    ensures { result ≡ status_after answered }
{
    match answered {
        Ok(status) => status,
        Err(WriteFail::Write) => 6,
        Err(WriteFail::NoMemory) => 7,
    }
}

/// The exit status, where all that it goes with was written.
fn answer<R: Threads + Wait + Clock + Sync, N: NativeCode, S: Shelf, K: Sink, G: Gate, W: Watch>(
    rt: &R,
    alloc: Global,
    native: &N,
    words: &[String],
    shelf: &mut S,
    sink: &mut K,
    gate: &G,
    tally: &mut Tally<W>,
) -> Result<u8, WriteFail>
    requires shelf { S.faults shelf.old < 2 ^ 64 - 1 }
    requires sink { K.faults sink.old < 2 ^ 64 - 1 }
    requires tally { tally.old < 2 ^ 63 }
    ensures contents { S.contents shelf.new ≡ S.contents shelf.old }
    ensures faults { FaultsAfter result (K.faults sink.old) (K.faults sink.new) }
    ensures carried { Carried (map string_bytes words.now) (S.contents shelf.old) (S.faults shelf.old) (S.faults shelf.new)
        (S.failed_names shelf.old) (S.failed_names shelf.new) (K.written sink.old) (K.written sink.new) result }
    ensures counted { IfOk result (IsCounted (map string_bytes words.now) (S.contents shelf.old) tally.old tally.new) }
{
    match asked(alloc, words)? {
        Some(Task::Run(run)) => answer_run(rt, alloc, native, run, shelf, sink, gate, tally),
        Some(Task::Plan(plan)) => answer_plan(alloc, plan, PlansText::Bare, shelf, sink),
        Some(Task::Explain(plan)) => answer_plan(alloc, plan, PlansText::Explained, shelf, sink),
        Some(Task::Check(program)) => answer_program(alloc, program, Listing::Sites, shelf, sink),
        Some(Task::Tree(program)) => answer_program(alloc, program, Listing::Tree, shelf, sink),
        Some(Task::Profile(profile)) => answer_profile(alloc, profile, shelf, sink),
        Some(Task::Gen(words)) => answer_gen(rt, alloc, words, sink, gate, tally),
        Some(Task::Log(run)) => answer_log(rt, alloc, run, shelf, sink),
        Some(Task::Audit(run, log)) => answer_audit(alloc, run, log, shelf, sink),
        Some(Task::Save(run, place)) => answer_save(rt, alloc, run, place, shelf, sink, gate),
        Some(Task::Resume(run, name)) => answer_resume(rt, alloc, run, name, shelf, sink, gate),
        Some(Task::Batch(run, list)) => answer_batch(rt, alloc, run, list, shelf, sink),
        None => refuse(alloc, Refusal::Words, sink),
    }
}

/// How the words want a program run.
fn options_of(run: RunWords) -> RunOptions
    requires { RunWithin (shown run) }
    ensures fuel { result.fuel ≡ run.entry.fuel }
    ensures size { (result.size.workers ≡ run.entry.options.workers) × (result.size.lane ≡ run.entry.lane) × (result.size.threads ≡ true) }
    ensures why { result.why ≡ run.entry.why }
{
    RunOptions {
        fuel: run.fuel,
        size: size_of(run),
        why: run.why,
    }
}

/// The exit status of a run.
fn answer_run<
    R: Threads + Wait + Clock + Sync,
    N: NativeCode,
    S: Shelf,
    K: Sink,
    G: Gate,
    W: Watch,
>(
    rt: &R,
    alloc: Global,
    native: &N,
    run: RunWords,
    shelf: &mut S,
    sink: &mut K,
    gate: &G,
    tally: &mut Tally<W>,
) -> Result<u8, WriteFail>
    requires run { RunWithin (shown run) }
    requires shelf { S.faults shelf.old < 2 ^ 64 - 1 }
    requires sink { K.faults sink.old < 2 ^ 64 - 1 }
    requires tally { tally.old < 2 ^ 63 }
    ensures contents { S.contents shelf.new ≡ S.contents shelf.old }
    ensures faults { FaultsAfter result (K.faults sink.old) (K.faults sink.new) }
    ensures carried { (words : List (List ℕ)) → Asks words (ToRun (shown run.entry)) → Carried words (S.contents shelf.old) (S.faults shelf.old)
        (S.faults shelf.new)
        (S.failed_names shelf.old) (S.failed_names shelf.new) (K.written sink.old) (K.written sink.new) result }
    ensures counted { (words : List (List ℕ)) → Asks words (ToRun (shown run.entry)) →
        IfOk result (IsCounted words (S.contents shelf.old) tally.old tally.new) }
{
    match load_texts(alloc, run, shelf)? {
        Texts::Run(program, input, plans) => {
            let options = options_of(run);
            let chooses = may_choose(run);
            run_to_end(
                rt, alloc, native, &program, &plans, &input, options, chooses, sink, gate, tally,
            )
        }
        Texts::Refused(refusal) => refuse(alloc, refusal, sink),
        Texts::Failed(role) => fail_read(alloc, role, sink),
    }
}
