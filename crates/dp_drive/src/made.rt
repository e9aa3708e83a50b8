//! The run of the made program.
ghost use Rattle.std.specs.Prelude.{◌≡◌, ◌<◌, ◌≤◌, ◌-◌, ◌^◌, ℕ, List, false, length, string_bytes, IfOk, OnErr, OnOk};
ghost use Rattle.dp_edge.specs.Sink.{appended};
ghost use Rattle.dp_edge.specs.Writing.{FaultsAfter, WritesFront};
ghost use Rattle.dp_run.specs.Given.{AreGiven};
ghost use Rattle.dp_words.specs.Words.{Asks, ToMake};
ghost use Rattle.dp_words.specs.Made.{MadeWithin};
ghost use Rattle.dp_load.specs.Roles.{Contents};
ghost use Rattle.dp_drive.specs.steps.Carried.{Carried};
ghost use Rattle.dp_load.specs.Texts.{FailedNames};
ghost use Rattle.dp_drive.specs.steps.Runs.{Runs};
ghost use Rattle.dp_drive.specs.Headline.{IsCounted};
ghost use Rattle.dp_drive.specs.Made.{made_line};

use crate::running::run_to_end;
use crate::writing::refuse;
use dp_base::{NoMemory, Row};
use dp_edge::{Gate, Sink, WriteFail, write};
use dp_load::{automatic_plans, read_program};
use dp_plan::Plan;
use dp_report::make_program;
use dp_run::{CrewSize, NoNativeCode, RunOptions, Tally, Watch};
use dp_tree::Program;
use dp_words::GenWords;
use std::alloc::Global;
use std::sync::Wait;
use std::thread::Threads;
use std::time::Clock;

/// The exit status of a run of the made program. No text is read for it.
pub fn answer_gen<R: Threads + Wait + Clock + Sync, K: Sink, G: Gate, W: Watch>(
    rt: &R,
    alloc: Global,
    words: GenWords,
    sink: &mut K,
    gate: &G,
    tally: &mut Tally<W>,
) -> Result<u8, WriteFail>
    requires within { MadeWithin words }
    requires sink { K.faults sink.old < 2 ^ 64 - 1 }
    requires tally { tally.old < 2 ^ 63 }
    ensures faults { FaultsAfter result (K.faults sink.old) (K.faults sink.new) }
    ensures carried { (given : List (List ℕ)) (contents : Contents) (faults : ℕ) (failed : FailedNames) → Asks given (ToMake words) →
        Carried given contents faults faults failed failed (K.written sink.old) (K.written sink.new) result }
    ensures counted { (given : List (List ℕ)) (contents : Contents) → Asks given (ToMake words) → IfOk result (IsCounted given contents tally.old tally.new) }
{
    let made = make_program(alloc, words.seed, words.size)?;
    match read_program(alloc, made.text.as_slice())? {
        Ok(program) => {
            let plans = automatic_plans(alloc, &program, None, words.options)?;
            run_made(
                rt,
                alloc,
                &program,
                &plans,
                &made.words,
                words,
                sink,
                gate,
                tally,
            )
        }
        Err(refusal) => refuse(alloc, refusal, sink),
    }
}

/// Writes the line of the words, and runs the program.
fn run_made<R: Threads + Wait + Clock + Sync, K: Sink, G: Gate, W: Watch>(
    rt: &R,
    alloc: Global,
    program: &Program,
    plans: &Row<Plan>,
    input: &Row<i64>,
    words: GenWords,
    sink: &mut K,
    gate: &G,
    tally: &mut Tally<W>,
) -> Result<u8, WriteFail>
    requires given { AreGiven program.now plans.now }
    requires words { length input.now ≤ 65536 }
    requires within { MadeWithin words }
    requires sink { K.faults sink.old < 2 ^ 64 - 1 }
    requires tally { tally.old < 2 ^ 63 }
    ensures faults { FaultsAfter result (K.faults sink.old) (K.faults sink.new) }
    ensures runs { Runs (made_line words) program.now plans.now input.now words.fuel false (K.written sink.old) (K.written sink.new)
        tally.old tally.new result }
{
    write_line(alloc, words, sink)?;
    let options = RunOptions {
        fuel: words.fuel,
        size: CrewSize::new(words.options.workers, words.lane, true),
        why: false,
    };
    run_to_end(
        rt,
        alloc,
        &NoNativeCode,
        program,
        plans,
        input,
        options,
        true,
        sink,
        gate,
        tally,
    )
}

/// Writes the line of the words.
fn write_line<K: Sink>(alloc: Global, words: GenWords, sink: &mut K) -> Result<(), WriteFail>
    requires { K.faults sink.old < 2 ^ 64 - 1 }
    ensures faults { FaultsAfter result (K.faults sink.old) (K.faults sink.new) }
    ensures ok { OnOk result (K.written sink.new ≡ appended (made_line words) (K.written sink.old)) }
    ensures err { OnErr result (WritesFront (made_line words) (K.written sink.old) (K.written sink.new)) }
{
    let line = line_of(alloc, words)?;
    write(line.as_bytes(), sink)?;
    Ok(())
}

/// The verb with the seed and the size.
fn line_of(alloc: Global, words: GenWords) -> Result<String, NoMemory>
    ensures { IfOk result (λ line. string_bytes line ≡ made_line words) }
{
    let seed = words.seed;
    let size = words.size;
    let line = format!(in alloc; "gen {seed} {size}\n")?;
    Ok(line)
}
