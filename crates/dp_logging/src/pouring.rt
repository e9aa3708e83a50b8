//! Lines that wait to be written.
ghost use Rattle.std.specs.Prelude.{◌≡◌, ◌<◌, ◌-◌, ◌^◌, [], OnOk};
ghost use Rattle.dp_edge.specs.Writing.{FaultsAfter};
ghost use Rattle.dp_logging.specs.Pouring.{StreamsText};

use dp_base::Row;
use dp_edge::{Sink, WriteFail, write};

/// So many bytes don't wait any longer.
const MANY: usize = 65_536;

/// Writes the lines that wait where they are many.
pub(crate) fn pour_if_many<K: Sink>(out: &mut Row<u8>, sink: &mut K) -> Result<(), WriteFail>
    requires { K.faults sink.old < 2 ^ 64 - 1 }
    ensures faults { FaultsAfter result (K.faults sink.old) (K.faults sink.new) }
    ensures streams { StreamsText result out.old (λ _. out.new) (K.written sink.old) (K.written sink.new) }
{
    if out.len() < MANY {
        return Ok(());
    }
    pour(out, sink)
}

/// Writes all lines that wait.
pub(crate) fn pour<K: Sink>(out: &mut Row<u8>, sink: &mut K) -> Result<(), WriteFail>
    requires { K.faults sink.old < 2 ^ 64 - 1 }
    ensures faults { FaultsAfter result (K.faults sink.old) (K.faults sink.new) }
    ensures ok { OnOk result (out.new ≡ []) }
    ensures streams { StreamsText result out.old (λ _. out.new) (K.written sink.old) (K.written sink.new) }
{
    write(out.as_slice(), sink)?;
    out.clear();
    Ok(())
}
