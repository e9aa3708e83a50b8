//! Epoch after epoch, with the iteration that breaks each executed again.
ghost use Rattle.std.specs.Prelude.{◌≡◌, ◌<◌, ◌≤◌, ◌+◌, ◌-◌, ◌^◌, None, IfOk, OnOk};
ghost use Rattle.dp_plan.specs.declared.Plan.{Plan};
ghost use Rattle.dp_meaning.specs.MachineState.{MachineState};
ghost use Rattle.dp_epoch.specs.Applied.{HasRoomForVerdicts, steps_left};
ghost use Rattle.dp_edge.specs.Writing.{FaultsAfter};
ghost use Rattle.dp_epoch.specs.InEpoch.{AfterRecovery, EpochEnds, IsUnclean, ToBegin, left_by_epoch, left_by_recovery};
ghost use Rattle.dp_epoch.specs.Prints.{prints_to_come};
ghost use Rattle.dp_crew.specs.EpochRan.{made_at_least};
ghost use Rattle.dp_crew.specs.Output.{Streams};
ghost use Rattle.dp_epoch.specs.Progress.{RegionDone};

use crate::begun::run_one_epoch;
use crate::crew::Crew;
use crate::recover::recover_to_end;
use crate::work::Work;
use dp_commit::{Tally, Watch};
use dp_edge::{Gate, Sink, WriteFail};
use dp_epoch::{EpochEnd, Ledger, RegionEnd};
use std::alloc::Global;
use std::sync::Wait;
use std::time::Clock;

/// Runs epochs until the region or the run ends.
pub(crate) fn run_epochs<'p, 'v, 'u, E, R: Wait + Clock + Sync, K: Sink, G: Gate, W: Watch>(
    work: Work<'u, '_>,
    crew: &mut Crew<'_, 'u, E, R, G>,
    mut ledger: Ledger<'p, 'v>,
    sink: &mut K,
    tally: &mut Tally<W>,
) -> Result<(Ledger<'p, 'v>, RegionEnd), WriteFail>
    requires fuel { ledger.committed.machine.fuel ≤ 1000000000 }
    requires sink { K.faults sink.old < 2 ^ 64 - 1 }
    requires start { (first : MachineState) × ToBegin work.region.now.program work.region.now.plan work.input.now first ledger.committed ledger.account }
    requires room { HasRoomForVerdicts tally.old ledger.committed }
    ensures faults { FaultsAfter result (K.faults sink.old) (K.faults sink.new) }
    ensures ok { IfOk result (λ r. (first : MachineState) → ToBegin work.entry.region.now.program work.entry.region.now.plan work.entry.input.now first
        ledger.entry.committed ledger.entry.account → RegionDone work.entry.region.now.plan first r.0.committed r.0.account r.1) }
    ensures why { IfOk result (λ r. r.0.account.why ≡ ledger.entry.account.why) }
    ensures streams { (first : MachineState) → ToBegin work.entry.region.now.program work.entry.region.now.plan work.entry.input.now first
        ledger.entry.committed ledger.entry.account →
        Streams result (prints_to_come work.entry.region.now.plan first ledger.entry.waiting ledger.entry.committed.count) (λ r. r.0.waiting)
        (K.written sink.old) (K.written sink.new) }
    ensures tally { IfOk result (λ r. tally.new + r.0.account.report.recovered_count + ledger.entry.account.report.iterations ≡ tally.old
        + r.0.account.report.iterations + ledger.entry.account.report.recovered_count) }
{
    'epochs: loop {
        let (after, end) = run_one_epoch(work, crew, ledger, sink, tally)?;
        let (next, end) = recover(work.alloc, after, end, sink, tally)?;
        match end {
            Some(end) => return Ok((next, end)),
            None => ledger = next,
        }
    }
}

/// Goes on behind an epoch that ended so: where an iteration isn't clean, it is executed again. With `None` a new epoch is to begin.
fn recover<'p, 'v, K: Sink, W: Watch>(
    alloc: Global,
    ledger: Ledger<'p, 'v>,
    end: EpochEnd,
    sink: &mut K,
    tally: &mut Tally<W>,
) -> Result<(Ledger<'p, 'v>, Option<RegionEnd>), WriteFail>
    requires sink { K.faults sink.old < 2 ^ 64 - 1 }
    requires ended { (plan : Plan) × (first : MachineState) × EpochEnds plan first ledger.committed ledger.account end }
    ensures faults { FaultsAfter result (K.faults sink.old) (K.faults sink.new) }
    ensures ok { IfOk result (λ r. (plan : Plan) (first : MachineState) → EpochEnds plan first ledger.entry.committed ledger.entry.account end →
        AfterRecovery plan first r.0.committed r.0.account r.1) }
    ensures streams { (plan : Plan) (first : MachineState) → EpochEnds plan first ledger.entry.committed ledger.entry.account end →
        Streams result (left_by_epoch plan first ledger.entry.waiting ledger.entry.committed.count end)
        (λ r. left_by_recovery plan first r.0.waiting r.0.committed.count r.1) (K.written sink.old) (K.written sink.new) }
    ensures counts { IfOk result (λ r. r.0.account.report.iterations + ledger.entry.account.report.recovered_count ≡ ledger.entry.account.report.iterations
        + r.0.account.report.recovered_count) }
    ensures why { IfOk result (λ r. r.0.account.why ≡ ledger.entry.account.why) }
    ensures left { IfOk result (λ r. r.1 ≡ None → steps_left r.0.committed + (1 - made_at_least end) ≤ steps_left ledger.entry.committed) }
    ensures tally { tally.new ≡ tally.old }
{
    match end {
        EpochEnd::Closed => Ok((ledger, Some(RegionEnd::Closed))),
        EpochEnd::Unclean => recover_unclean(alloc, ledger, sink, tally),
        EpochEnd::Left => Ok((ledger, None)),
    }
}

/// Executes the iteration again that isn't clean.
fn recover_unclean<'p, 'v, K: Sink, W: Watch>(
    alloc: Global,
    mut ledger: Ledger<'p, 'v>,
    sink: &mut K,
    tally: &mut Tally<W>,
) -> Result<(Ledger<'p, 'v>, Option<RegionEnd>), WriteFail>
    requires sink { K.faults sink.old < 2 ^ 64 - 1 }
    requires unclean { (plan : Plan) × (first : MachineState) × IsUnclean plan first ledger.committed ledger.account }
    ensures faults { FaultsAfter result (K.faults sink.old) (K.faults sink.new) }
    ensures ok { IfOk result (λ r. (plan : Plan) (first : MachineState) → IsUnclean plan first ledger.entry.committed ledger.entry.account →
        AfterRecovery plan first r.0.committed r.0.account r.1) }
    ensures streams { (plan : Plan) (first : MachineState) → IsUnclean plan first ledger.entry.committed ledger.entry.account →
        Streams result (prints_to_come plan first ledger.entry.waiting ledger.entry.committed.count)
        (λ r. left_by_recovery plan first r.0.waiting r.0.committed.count r.1) (K.written sink.old) (K.written sink.new) }
    ensures counts { IfOk result (λ r. r.0.account.report.iterations + ledger.entry.account.report.recovered_count ≡ ledger.entry.account.report.iterations
        + r.0.account.report.recovered_count) }
    ensures why { IfOk result (λ r. r.0.account.why ≡ ledger.entry.account.why) }
    ensures left { IfOk result (λ r. r.1 ≡ None → steps_left r.0.committed < steps_left ledger.entry.committed) }
    ensures tally { tally.new ≡ tally.old }
{
    let end = recover_iteration(alloc, &mut ledger, sink, tally)?;
    Ok((ledger, end))
}

/// Executes the iteration again that isn't clean. A begun one is counted, listed and told.
fn recover_iteration<K: Sink, W: Watch>(
    alloc: Global,
    ledger: &mut Ledger<'_, '_>,
    sink: &mut K,
    tally: &mut Tally<W>,
) -> Result<Option<RegionEnd>, WriteFail>
    requires sink { K.faults sink.old < 2 ^ 64 - 1 }
    requires unclean { (plan : Plan) × (first : MachineState) × IsUnclean plan first ledger.old.committed ledger.old.account }
    ensures faults { FaultsAfter result (K.faults sink.old) (K.faults sink.new) }
    ensures ok { IfOk result (λ end. (plan : Plan) (first : MachineState) → IsUnclean plan first ledger.old.committed ledger.old.account →
        AfterRecovery plan first ledger.new.committed ledger.new.account end) }
    ensures streams { (plan : Plan) (first : MachineState) → IsUnclean plan first ledger.old.committed ledger.old.account →
        Streams result (prints_to_come plan first ledger.old.waiting ledger.old.committed.count)
        (left_by_recovery plan first ledger.new.waiting ledger.new.committed.count) (K.written sink.old) (K.written sink.new) }
    ensures counts { OnOk result (ledger.new.account.report.iterations + ledger.old.account.report.recovered_count ≡ ledger.old.account.report.iterations
        + ledger.new.account.report.recovered_count) }
    ensures why { OnOk result (ledger.new.account.why ≡ ledger.old.account.why) }
    ensures left { IfOk result (λ end. end ≡ None → steps_left ledger.new.committed < steps_left ledger.old.committed) }
    ensures tally { tally.new ≡ tally.old }
{
    let number = ledger.committed.count();
    let begun = ledger.committed.steps() < ledger.committed.fuel();
    let end = recover_to_end(alloc, ledger, sink)?;
    if begun {
        ledger.count_again(number, end)?;
        tally.again(ledger.committed.steps());
    }
    Ok(end)
}
