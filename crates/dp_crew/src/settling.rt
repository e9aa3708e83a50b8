//! A region that has ended is handed over.
ghost use Rattle.std.specs.Prelude.{◌≡◌, ◌<◌, ◌-◌, ◌^◌, [], IfOk, OnOk};
ghost use Rattle.dp_edge.specs.Writing.{FaultsAfter};
ghost use Rattle.dp_crew.specs.Output.{Streams};

use crate::waiting::flush;
use dp_base::RegionReport;
use dp_edge::{Sink, WriteFail};
use dp_epoch::Ledger;
use dp_meaning::Machine;
use std::alloc::Global;

/// Writes the prints that wait, hands over the report, and gives the machine back.
pub(crate) fn settle<'p, K: Sink>(
    ledger: Ledger<'p, '_>,
    alloc: Global,
    report: &mut RegionReport,
    sink: &mut K,
) -> Result<Machine<'p>, WriteFail>
    requires sink { K.faults sink.old < 2 ^ 64 - 1 }
    ensures faults { FaultsAfter result (K.faults sink.old) (K.faults sink.new) }
    ensures machine { IfOk result (λ machine. machine ≡ ledger.entry.committed.machine) }
    ensures report { OnOk result (report.new ≡ ledger.entry.account.report) }
    ensures streams { Streams result ledger.entry.waiting (λ _. []) (K.written sink.old) (K.written sink.new) }
{
    let Ledger {
        committed,
        account,
        mut waiting,
    } = ledger;
    flush(alloc, &mut waiting, sink)?;
    *report = account.into_report();
    Ok(committed.finish())
}
