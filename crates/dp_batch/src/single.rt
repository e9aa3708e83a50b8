//! One run, with its text in memory.
ghost use Rattle.std.specs.Prelude.{◌≡◌, ◌≤◌, length, IfOk};
ghost use Rattle.dp_batch.specs.BatchText.{batched_run_text};

use dp_base::{NoMemory, Row};
use dp_edge::{MemSink, OpenGate};
use dp_run::{CrewSize, NoNativeCode, PreparedProgram, RunOptions, Tally, Unwatched, run_program};
use std::alloc::Global;
use std::sync::Wait;
use std::thread::Threads;
use std::time::Clock;

/// The text of a run, without causes.
pub fn one<R: Threads + Wait + Clock + Sync>(
    rt: &R,
    alloc: Global,
    prepared: &PreparedProgram<'_>,
    input: &[i64],
    fuel: u64,
    size: CrewSize,
) -> Result<Row<u8>, NoMemory>
    requires words { length input.now ≤ 65536 }
    requires fuel { fuel ≤ 1000000000 }
    ensures { IfOk result (λ bytes. bytes ≡ batched_run_text prepared.now.program prepared.now.plans fuel input.now) }
{
    let mut sink = MemSink::new(alloc, None);
    let mut tally = Tally::new(Unwatched);
    let why = false;
    let options = RunOptions { fuel, size, why };
    match run_program(
        rt,
        alloc,
        &NoNativeCode,
        prepared,
        input,
        options,
        &mut sink,
        &OpenGate,
        &mut tally,
    ) {
        Ok(_) => Row::from_slice(alloc, sink.bytes()),
        Err(_) => Err(NoMemory),
    }
}
