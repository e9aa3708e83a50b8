//! One epoch: verdicts are taken, and clean iterations are committed in order.
ghost use Rattle.std.specs.Prelude.{◌≡◌, ◌<◌, ◌≤◌, ◌+◌, ◌-◌, ◌^◌, true, IfOk};
ghost use Rattle.dp_run_plan.specs.RunPlan.{hides_nothing};
ghost use Rattle.dp_meaning.specs.MachineState.{MachineState};
ghost use Rattle.dp_epoch.specs.Applied.{HasRoomForVerdicts, steps_left};
ghost use Rattle.dp_crew.specs.EpochRan.{EpochRan, made_at_least};
ghost use Rattle.dp_epoch.specs.InEpoch.{InEpoch};

use crate::crew::Crew;
use crate::waiting::flush_if_many;
use dp_commit::{Tally, Watch};
use dp_edge::{Gate, Sink, WriteFail};
use dp_epoch::{EpochEnd, Ledger, Taken, take};
use dp_pipeline::LaneVerdicts;
use std::alloc::Global;
use std::sync::Wait;
use std::time::Clock;

/// Commits the iterations of an epoch as their verdicts come, and lets their prints wait or writes them, up to the region's
/// end or the first iteration that isn't clean, or until the epoch is left, where it may be.
pub(crate) fn run_epoch<'p, 'v, 'u, E, R: Wait + Clock + Sync, K: Sink, G: Gate, W: Watch>(
    crew: &mut Crew<'_, 'u, E, R, G>,
    alloc: Global,
    may_leave: bool,
    verdicts: &mut LaneVerdicts<'u>,
    mut ledger: Ledger<'p, 'v>,
    sink: &mut K,
    tally: &mut Tally<W>,
) -> Result<(Ledger<'p, 'v>, EpochEnd), WriteFail>
    requires sink { K.faults sink.old < 2 ^ 64 - 1 }
    requires epoch { (first : MachineState) × InEpoch verdicts.old.key verdicts.old.given first ledger.committed ledger.account }
    requires leaving { may_leave ≡ true → hides_nothing verdicts.old.key.program verdicts.old.key.plan ≡ true }
    requires room { HasRoomForVerdicts tally.old ledger.committed }
    ensures ran { EpochRan (λ first. InEpoch verdicts.old.key verdicts.old.given first ledger.entry.committed ledger.entry.account) verdicts.old.key.plan
        ledger.entry result (K.faults sink.old) (K.faults sink.new) (K.written sink.old) (K.written sink.new) tally.old tally.new }
    ensures falls { IfOk result (λ r. steps_left r.0.committed + made_at_least r.1 ≤ steps_left ledger.entry.committed) }
    ensures key { verdicts.new.key ≡ verdicts.old.key }
{
    let rt = crew.rt();
    'verdicts: loop {
        crew.await_one(verdicts);
        let taken = take(alloc, rt, verdicts, &mut ledger, tally)?;
        flush_if_many(alloc, &mut ledger.waiting, sink)?;
        match taken {
            Taken::Committed => {
                if crew.leaves(may_leave, ledger.committed.steps()) {
                    return Ok((ledger, EpochEnd::Left));
                }
            }
            Taken::Closed => return Ok((ledger, EpochEnd::Closed)),
            Taken::Unclean => return Ok((ledger, EpochEnd::Unclean)),
        }
    }
}
