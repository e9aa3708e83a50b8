//! Answers of one line.
ghost use Rattle.std.specs.Prelude.{◌<◌, ◌-◌, ◌^◌};
ghost use Rattle.dp_edge.specs.Writing.{FaultsAfter};
ghost use Rattle.dp_drive.specs.steps.Carried.{Finishes};
ghost use Rattle.dp_refusal.specs.Refusal.{refusal_line, refusal_status, failed_read_line};

use dp_edge::{Sink, WriteFail, write};
use dp_refusal::{Refusal, Role};
use std::alloc::Global;

/// Writes a refusal's line.
pub fn refuse<K: Sink>(alloc: Global, refusal: Refusal, sink: &mut K) -> Result<u8, WriteFail>
    requires { K.faults sink.old < 2 ^ 64 - 1 }
    ensures faults { FaultsAfter result (K.faults sink.old) (K.faults sink.new) }
    ensures finishes { Finishes (refusal_status refusal) (refusal_line refusal) (K.written sink.old) (K.written sink.new) result }
{
    let line = refusal.line(alloc)?;
    write(line.as_bytes(), sink)?;
    Ok(refusal.status())
}

/// Writes the line of a text that couldn't be read.
pub fn fail_read<K: Sink>(alloc: Global, role: Role, sink: &mut K) -> Result<u8, WriteFail>
    requires { K.faults sink.old < 2 ^ 64 - 1 }
    ensures faults { FaultsAfter result (K.faults sink.old) (K.faults sink.new) }
    ensures finishes { Finishes 5 (failed_read_line role) (K.written sink.old) (K.written sink.new) result }
{
    let line = role.failed_read_line(alloc)?;
    write(line.as_bytes(), sink)?;
    Ok(5)
}
