//! A region's epochs, and the threads that their units are handed to: one scope for all of them.
ghost use Rattle.std.specs.Prelude.{◌≡◌, ◌<◌, ◌≤◌, ◌+◌, ◌-◌, ◌^◌, IfOk};
ghost use Rattle.dp_meaning.specs.MachineState.{MachineState};
ghost use Rattle.dp_edge.specs.Writing.{FaultsAfter};
ghost use Rattle.dp_epoch.specs.Applied.{HasRoomForVerdicts};
ghost use Rattle.dp_epoch.specs.InEpoch.{ToBegin};
ghost use Rattle.dp_epoch.specs.Prints.{prints_to_come};
ghost use Rattle.dp_epoch.specs.Progress.{RegionDone};
ghost use Rattle.dp_crew.specs.Output.{Streams};

use crate::crew::Crew;
use crate::epochs::run_epochs;
use crate::trays::trays_for;
use crate::work::Work;
use dp_commit::{Tally, Watch};
use dp_edge::{Gate, Sink, WriteFail};
use dp_epoch::{Ledger, RegionEnd};
use std::sync::Wait;
use std::thread;
use std::thread::Threads;
use std::time::Clock;

/// Runs epochs until the region or the run ends. Then every thread has ended.
pub(crate) fn run_together<'p, 'v, R: Threads + Wait + Clock + Sync, K: Sink, G: Gate, W: Watch>(
    rt: &R,
    gate: &G,
    work: Work<'_, '_>,
    ledger: Ledger<'p, 'v>,
    sink: &mut K,
    tally: &mut Tally<W>,
) -> Result<(Ledger<'p, 'v>, RegionEnd), WriteFail>
    requires fuel { ledger.committed.machine.fuel ≤ 1000000000 }
    requires sink { K.faults sink.old < 2 ^ 64 - 1 }
    requires start { (first : MachineState) × ToBegin work.region.now.program work.region.now.plan work.input.now first ledger.committed ledger.account }
    requires room { HasRoomForVerdicts tally.old ledger.committed }
    ensures faults { FaultsAfter result (K.faults sink.old) (K.faults sink.new) }
    ensures ok { IfOk result (λ r. (first : MachineState) → ToBegin work.entry.region.now.program work.entry.region.now.plan work.entry.input.now first
        ledger.entry.committed ledger.entry.account → RegionDone work.entry.region.now.plan first r.0.committed r.0.account r.1) }
    ensures why { IfOk result (λ r. r.0.account.why ≡ ledger.entry.account.why) }
    ensures streams { (first : MachineState) → ToBegin work.entry.region.now.program work.entry.region.now.plan work.entry.input.now first
        ledger.entry.committed ledger.entry.account →
        Streams result (prints_to_come work.entry.region.now.plan first ledger.entry.waiting ledger.entry.committed.count) (λ r. r.0.waiting)
        (K.written sink.old) (K.written sink.new) }
    ensures tally { IfOk result (λ r. tally.new + r.0.account.report.recovered_count + ledger.entry.account.report.iterations ≡ tally.old
        + r.0.account.report.iterations + ledger.entry.account.report.recovered_count) }
{
    let made = trays_for(work.alloc, work.bells.len().saturating_sub(1))?;
    let trays = made.as_slice();
    let (lent_sink, lent_tally) = (&mut *sink, &mut *tally);
    let (sink_back, tally_back, end) = thread::scope(
        thread::scope_env(),
        rt,
        move |scope| -> (
            &mut K,
            &mut Tally<W>,
            Result<(Ledger<'_, '_>, RegionEnd), WriteFail>,
        )
            requires fuel { ledger.committed.machine.fuel ≤ 1000000000 }
            requires sink { K.faults lent_sink.now < 2 ^ 64 - 1 }
            requires start { (first : MachineState) × ToBegin work.region.now.program work.region.now.plan work.input.now first
                ledger.committed ledger.account }
            requires room { HasRoomForVerdicts lent_tally.now ledger.committed }
            ensures sink { result.0.ghost_name ≡ lent_sink.entry.ghost_name }
            ensures tallies { result.1.ghost_name ≡ lent_tally.entry.ghost_name }
            ensures faults { FaultsAfter result.2 (K.faults lent_sink.entry.now) (K.faults result.0.now) }
            ensures ok { IfOk result.2 (λ r. (first : MachineState) → ToBegin work.entry.region.now.program work.entry.region.now.plan work.entry.input.now
                first ledger.entry.committed ledger.entry.account → RegionDone work.entry.region.now.plan first r.0.committed r.0.account r.1) }
            ensures why { IfOk result.2 (λ r. r.0.account.why ≡ ledger.entry.account.why) }
            ensures streams { (first : MachineState) → ToBegin work.entry.region.now.program work.entry.region.now.plan work.entry.input.now first
                ledger.entry.committed ledger.entry.account →
                Streams result.2 (prints_to_come work.entry.region.now.plan first ledger.entry.waiting ledger.entry.committed.count) (λ r. r.0.waiting)
                (K.written lent_sink.entry.now) (K.written result.0.now) }
            ensures tally { IfOk result.2 (λ r. result.1.now + r.0.account.report.recovered_count + ledger.entry.account.report.iterations
                ≡ lent_tally.entry.now + r.0.account.report.iterations + ledger.entry.account.report.recovered_count) }
        {
            let mut crew = Crew::new(work, scope, rt, gate, trays, lent_tally);
            let end = run_epochs(work, &mut crew, ledger, lent_sink, lent_tally);
            crew.dismiss();
            crew.tell(work.region.number(), lent_tally);
            (lent_sink, lent_tally, end)
        },
    );
    take_back(sink_back, tally_back);
    end
}

/// Ends two loans.
fn take_back<A, B>(one: &mut A, other: &mut B)
    ensures one { one.new ≡ one.old }
    ensures other { other.new ≡ other.old }
{}
