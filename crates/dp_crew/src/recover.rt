//! An iteration that is executed again, sequentially.
ghost use Rattle.std.specs.Prelude.{◌≡◌, ◌<◌, ◌-◌, ◌^◌, ◌++◌, List, ℤ, length, IfOk, OnErr, OnOk};
ghost use Rattle.dp_meaning.specs.declared.ends.Part.TheVariants.{Region};
ghost use Rattle.dp_meaning.specs.MachineState.{next_part};
ghost use Rattle.dp_report.specs.PrintsText.{prints_bytes};
ghost use Rattle.dp_edge.specs.Writing.{FaultsAfter, WritesFront};
ghost use Rattle.dp_crew.specs.Output.{Emits};
ghost use Rattle.dp_epoch.specs.Accounts.{HearsOn};
ghost use Rattle.dp_epoch.specs.Remade.{MayPrint, Remade, iteration_end};

use crate::waiting::flush_if_many;
use dp_edge::{Sink, WriteFail};
use dp_epoch::{Ledger, RegionEnd};
use dp_meaning::IterEnd;
use std::alloc::Global;

/// The greatest number of steps between two looks at the prints that wait.
const TURNS: u32 = 65536;

/// Executes the current iteration to its end, and lets its prints wait or writes them. With `None` the next one comes.
pub(crate) fn recover_to_end<K: Sink>(
    alloc: Global,
    ledger: &mut Ledger<'_, '_>,
    sink: &mut K,
) -> Result<Option<RegionEnd>, WriteFail>
    requires sink { K.faults sink.old < 2 ^ 64 - 1 }
    requires next { next_part ledger.old.committed.machine ≡ Region ledger.old.committed.region }
    ensures faults { FaultsAfter result (K.faults sink.old) (K.faults sink.new) }
    ensures ok { IfOk result (λ end. (printed : List ℤ) × Remade ledger.old.committed ledger.new.committed printed (iteration_end end)
        × Emits (ledger.old.waiting ++ printed) ledger.new.waiting (K.written sink.old) (K.written sink.new)) }
    ensures account { OnOk result (ledger.new.account ≡ record ledger.old.account { views = ledger.new.account.views }) }
    ensures heard { OnOk result (HearsOn ledger.old.committed.machine ledger.new.committed.machine ledger.old.account.views ledger.new.account.views) }
    ensures err { OnErr result ((printed : List ℤ) × MayPrint ledger.old.committed printed × WritesFront (prints_bytes (ledger.old.waiting ++ printed))
        (K.written sink.old) (K.written sink.new)) }
{
    'calls: loop {
        match go_on(alloc, ledger, sink)? {
            IterEnd::Going => {}
            IterEnd::Next => return Ok(None),
            IterEnd::Closed => return Ok(Some(RegionEnd::Closed)),
            IterEnd::Fault(fault) => return Ok(Some(RegionEnd::Fault(fault))),
            IterEnd::Fuel => return Ok(Some(RegionEnd::Fuel)),
        }
    }
}

/// Executes some steps of it. Then prints are written where many wait.
fn go_on<K: Sink>(
    alloc: Global,
    ledger: &mut Ledger<'_, '_>,
    sink: &mut K,
) -> Result<IterEnd, WriteFail>
    requires sink { K.faults sink.old < 2 ^ 64 - 1 }
    requires next { next_part ledger.old.committed.machine ≡ Region ledger.old.committed.region }
    ensures faults { FaultsAfter result (K.faults sink.old) (K.faults sink.new) }
    ensures ok { IfOk result (λ end. (printed : List ℤ) × Remade ledger.old.committed ledger.new.committed printed end
        × Emits (ledger.old.waiting ++ printed) ledger.new.waiting (K.written sink.old) (K.written sink.new)) }
    ensures account { OnOk result (ledger.new.account ≡ record ledger.old.account { views = ledger.new.account.views }) }
    ensures heard { OnOk result (HearsOn ledger.old.committed.machine ledger.new.committed.machine ledger.old.account.views ledger.new.account.views) }
    ensures err { OnErr result ((printed : List ℤ) × MayPrint ledger.old.committed printed × WritesFront (prints_bytes (ledger.old.waiting ++ printed))
        (K.written sink.old) (K.written sink.new)) }
    ensures few { OnOk result (length ledger.new.waiting < 4096) }
{
    let end = ledger.recover(alloc, TURNS)?;
    flush_if_many(alloc, &mut ledger.waiting, sink)?;
    Ok(end)
}
