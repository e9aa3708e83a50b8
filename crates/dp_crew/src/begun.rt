//! An epoch from its beginning to its end.
ghost use Rattle.std.specs.Prelude.{◌≡◌, ◌<◌, ◌≤◌, ◌+◌, ◌-◌, ◌^◌, IfOk};
ghost use Rattle.dp_meaning.specs.MachineState.{MachineState};
ghost use Rattle.dp_epoch.specs.Applied.{HasRoomForVerdicts, steps_left};
ghost use Rattle.dp_epoch.specs.InEpoch.{ToBegin};
ghost use Rattle.dp_crew.specs.EpochRan.{EpochRan, made_at_least};

use crate::choosing::Way;
use crate::crew::Crew;
use crate::epoch::run_epoch;
use crate::following::follow_ahead;
use crate::work::Work;
use dp_commit::{Tally, Watch};
use dp_edge::{Gate, Sink, WriteFail};
use dp_epoch::{EpochEnd, Ledger, pipeline_here};
use dp_pipeline::Pipeline;
use dp_stop::StopSetter;
use std::sync::Wait;
use std::time::Clock;

/// Follows iterations behind what is committed, by the one-stage form and then by a plan that keeps inner loops whole, where that is to be, and runs the
/// epoch that begins there.
pub(crate) fn run_one_epoch<'p, 'v, 'u, E, R: Wait + Clock + Sync, K: Sink, G: Gate, W: Watch>(
    work: Work<'u, '_>,
    crew: &mut Crew<'_, 'u, E, R, G>,
    ledger: Ledger<'p, 'v>,
    sink: &mut K,
    tally: &mut Tally<W>,
) -> Result<(Ledger<'p, 'v>, EpochEnd), WriteFail>
    requires fuel { ledger.committed.machine.fuel ≤ 1000000000 }
    requires sink { K.faults sink.old < 2 ^ 64 - 1 }
    requires epoch { (first : MachineState) × ToBegin work.region.now.program work.region.now.plan work.input.now first ledger.committed ledger.account }
    requires room { HasRoomForVerdicts tally.old ledger.committed }
    ensures ran { EpochRan (λ first. ToBegin work.entry.region.now.program work.entry.region.now.plan work.entry.input.now first ledger.entry.committed
        ledger.entry.account) work.entry.region.now.plan ledger.entry result (K.faults sink.old) (K.faults sink.new) (K.written sink.old) (K.written sink.new)
        tally.old tally.new }
    ensures falls { IfOk result (λ r. steps_left r.0.committed + made_at_least r.1 ≤ steps_left ledger.entry.committed) }
{
    let followed = follow_ahead(work, Way::OneStage, crew, ledger, sink, tally)?;
    run_behind(work, crew, followed, sink, tally)
}

/// Follows iterations by a plan that keeps inner loops whole, where that is to be, and runs the epoch that begins there.
fn run_behind<'p, 'v, 'u, E, R: Wait + Clock + Sync, K: Sink, G: Gate, W: Watch>(
    work: Work<'u, '_>,
    crew: &mut Crew<'_, 'u, E, R, G>,
    ledger: Ledger<'p, 'v>,
    sink: &mut K,
    tally: &mut Tally<W>,
) -> Result<(Ledger<'p, 'v>, EpochEnd), WriteFail>
    requires fuel { ledger.committed.machine.fuel ≤ 1000000000 }
    requires sink { K.faults sink.old < 2 ^ 64 - 1 }
    requires epoch { (first : MachineState) × ToBegin work.region.now.program work.region.now.plan work.input.now first ledger.committed ledger.account }
    requires room { HasRoomForVerdicts tally.old ledger.committed }
    ensures ran { EpochRan (λ first. ToBegin work.entry.region.now.program work.entry.region.now.plan work.entry.input.now first ledger.entry.committed
        ledger.entry.account) work.entry.region.now.plan ledger.entry result (K.faults sink.old) (K.faults sink.new) (K.written sink.old) (K.written sink.new)
        tally.old tally.new }
    ensures falls { IfOk result (λ r. steps_left r.0.committed + made_at_least r.1 ≤ steps_left ledger.entry.committed) }
{
    let followed = follow_ahead(work, Way::WholeLoops, crew, ledger, sink, tally)?;
    run_own_epoch(work, crew, followed, sink, tally)
}

/// Runs the epoch that begins behind what is committed.
fn run_own_epoch<'p, 'v, 'u, E, R: Wait + Clock + Sync, K: Sink, G: Gate, W: Watch>(
    work: Work<'u, '_>,
    crew: &mut Crew<'_, 'u, E, R, G>,
    ledger: Ledger<'p, 'v>,
    sink: &mut K,
    tally: &mut Tally<W>,
) -> Result<(Ledger<'p, 'v>, EpochEnd), WriteFail>
    requires fuel { ledger.committed.machine.fuel ≤ 1000000000 }
    requires sink { K.faults sink.old < 2 ^ 64 - 1 }
    requires epoch { (first : MachineState) × ToBegin work.region.now.program work.region.now.plan work.input.now first ledger.committed ledger.account }
    requires room { HasRoomForVerdicts tally.old ledger.committed }
    ensures ran { EpochRan (λ first. ToBegin work.entry.region.now.program work.entry.region.now.plan work.entry.input.now first ledger.entry.committed
        ledger.entry.account) work.entry.region.now.plan ledger.entry result (K.faults sink.old) (K.faults sink.new) (K.written sink.old) (K.written sink.new)
        tally.old tally.new }
    ensures falls { IfOk result (λ r. steps_left r.0.committed + made_at_least r.1 ≤ steps_left ledger.entry.committed) }
{
    let mut setter = StopSetter::new(work.alloc)?;
    let (begun, lent) = (&ledger, &mut setter);
    let may_leave = work.may_leave();
    let Pipeline { units, verdicts } = pipeline_here(
        work.alloc,
        work.region.region(),
        work.input,
        work.size,
        begun,
        lent,
    )?;
    let mut polled = verdicts.polling(units);
    let taken = &mut polled;
    crew.begin(None, ledger.committed.steps());
    let end = run_epoch(crew, work.alloc, may_leave, taken, ledger, sink, tally);
    crew.end(None, setter);
    end
}
