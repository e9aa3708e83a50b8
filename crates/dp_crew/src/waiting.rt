//! Prints that wait to be written.
ghost use Rattle.std.specs.Prelude.{◌≡◌, ◌<◌, ◌≤◌, ◌-◌, ◌^◌, [], length, OnErr, OnOk};
ghost use Rattle.dp_crew.specs.Output.{Streams};
ghost use Rattle.dp_edge.specs.Writing.{FaultsAfter};

use dp_base::Row;
use dp_edge::{Sink, WriteFail, write};
use dp_report::prints_text;
use std::alloc::Global;

/// So many prints don't wait any longer.
const MANY: usize = 4096;

/// Writes the prints that wait where they are many.
pub fn flush_if_many<K: Sink>(
    alloc: Global,
    waiting: &mut Row<i64>,
    sink: &mut K,
) -> Result<(), WriteFail>
    requires { K.faults sink.old < 2 ^ 64 - 1 }
    ensures faults { FaultsAfter result (K.faults sink.old) (K.faults sink.new) }
    ensures few { OnOk result (length waiting.new < 4096) }
    ensures many { OnErr result (4096 ≤ length waiting.old) }
    ensures streams { Streams result waiting.old (λ _. waiting.new) (K.written sink.old) (K.written sink.new) }
{
    if waiting.len() < MANY {
        return Ok(());
    }
    flush(alloc, waiting, sink)
}

/// Writes all prints that wait.
pub fn flush<K: Sink>(alloc: Global, waiting: &mut Row<i64>, sink: &mut K) -> Result<(), WriteFail>
    requires { K.faults sink.old < 2 ^ 64 - 1 }
    ensures faults { FaultsAfter result (K.faults sink.old) (K.faults sink.new) }
    ensures ok { OnOk result (waiting.new ≡ []) }
    ensures streams { Streams result waiting.old (λ _. waiting.new) (K.written sink.old) (K.written sink.new) }
{
    let text = prints_text(alloc, waiting.as_slice())?;
    write(text.as_slice(), sink)?;
    waiting.clear();
    Ok(())
}
