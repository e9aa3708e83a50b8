//! Iterations that are committed from a run plan's pipeline.
ghost use Rattle.std.specs.Prelude.{◌≡◌, ◌<◌, ◌≤◌, ◌+◌, ◌-◌, ◌^◌, IfOk};
ghost use Rattle.dp_plan.specs.declared.Plan.{Plan};
ghost use Rattle.dp_prepared.specs.Planned.{IsPlanned};
ghost use Rattle.dp_run_plan.specs.Others.{RunsAs};
ghost use Rattle.dp_meaning.specs.MachineState.{MachineState};
ghost use Rattle.dp_epoch.specs.Applied.{HasRoomForVerdicts};
ghost use Rattle.dp_epoch.specs.Followed.{FollowsVerdict, IsFollowed};
ghost use Rattle.dp_epoch.specs.InEpoch.{ToBegin};
ghost use Rattle.dp_crew.specs.EpochRan.{HasFollowed};

use crate::choosing::Way;
use crate::crew::Crew;
use crate::waiting::flush_if_many;
use crate::work::Work;
use dp_base::NoMemory;
use dp_commit::{Tally, Watch};
use dp_edge::{Gate, Sink, WriteFail};
use dp_epoch::{Followed, Ledger, follow, pipeline_here};
use dp_pipeline::{LaneVerdicts, Pipeline};
use dp_prepared::PreparedRegion;
use dp_stop::StopSetter;
use std::alloc::Global;
use std::sync::Wait;
use std::time::Clock;

/// Follows the iterations behind what is committed in this way, if there is such a run plan and it is chosen. An epoch of the
/// plan may begin behind them.
pub(crate) fn follow_ahead<'p, 'v, 'u, E, R: Wait + Clock + Sync, K: Sink, G: Gate, W: Watch>(
    work: Work<'u, '_>,
    way: Way,
    crew: &mut Crew<'_, 'u, E, R, G>,
    ledger: Ledger<'p, 'v>,
    sink: &mut K,
    tally: &mut Tally<W>,
) -> Result<Ledger<'p, 'v>, WriteFail>
    requires fuel { ledger.committed.machine.fuel ≤ 1000000000 }
    requires sink { K.faults sink.old < 2 ^ 64 - 1 }
    requires epoch { (first : MachineState) × ToBegin work.region.now.program work.region.now.plan work.input.now first ledger.committed ledger.account }
    requires room { HasRoomForVerdicts tally.old ledger.committed }
    ensures followed { HasFollowed (λ first. ToBegin work.entry.region.now.program work.entry.region.now.plan work.entry.input.now first ledger.entry.committed
        ledger.entry.account) work.entry.region.now.plan ledger.entry result (K.faults sink.old) (K.faults sink.new) (K.written sink.old) (K.written sink.new)
        tally.old tally.new }
{
    match work.other(way) {
        Some(other) => follow_epoch(work, other, way, crew, ledger, sink, tally),
        None => Ok(ledger),
    }
}

/// Follows by the epoch of this other plan of the region that begins behind what is committed, if that is chosen.
fn follow_epoch<'p, 'v, 'u, E, R: Wait + Clock + Sync, K: Sink, G: Gate, W: Watch>(
    work: Work<'u, '_>,
    other: &'u PreparedRegion<'_>,
    way: Way,
    crew: &mut Crew<'_, 'u, E, R, G>,
    ledger: Ledger<'p, 'v>,
    sink: &mut K,
    tally: &mut Tally<W>,
) -> Result<Ledger<'p, 'v>, WriteFail>
    requires fuel { ledger.committed.machine.fuel ≤ 1000000000 }
    requires sink { K.faults sink.old < 2 ^ 64 - 1 }
    requires epoch { (first : MachineState) × ToBegin work.region.now.program work.region.now.plan work.input.now first ledger.committed ledger.account }
    requires other { RunsAs work.region.now other.now }
    requires room { HasRoomForVerdicts tally.old ledger.committed }
    ensures followed { HasFollowed (λ first. ToBegin work.entry.region.now.program work.entry.region.now.plan work.entry.input.now first ledger.entry.committed
        ledger.entry.account) work.entry.region.now.plan ledger.entry result (K.faults sink.old) (K.faults sink.new) (K.written sink.old) (K.written sink.new)
        tally.old tally.new }
{
    if !crew.follows(way) {
        return Ok(ledger);
    }
    is_planned(other);
    let mut setter = StopSetter::new(work.alloc)?;
    let (begun, lent) = (&ledger, &mut setter);
    let Pipeline { units, verdicts } = pipeline_here(
        work.alloc, other, work.input, work.size, begun, lent,
    )?;
    let mut polled = verdicts.polling(units);
    let taken = &mut polled;
    let words = work.region.plan().words;
    crew.begin(Some(way), ledger.committed.steps());
    let followed = follow_verdicts(crew, way, work.alloc, words, taken, ledger, sink, tally);
    crew.end(Some(way), setter);
    followed
}

/// The plan of a prepared region is one for its program.
fn is_planned(region: &PreparedRegion<'_>)
    ensures { IsPlanned region.now.program region.now.plan }
{
    let _number = region.number();
}

/// Awaits the next verdict of the other plan's epoch, and takes it.
fn follow_next<'u, E, R: Wait + Clock + Sync, G: Gate, W: Watch>(
    crew: &mut Crew<'_, 'u, E, R, G>,
    alloc: Global,
    words: u32,
    verdicts: &mut LaneVerdicts<'u>,
    ledger: &mut Ledger<'_, '_>,
    tally: &mut Tally<W>,
) -> Result<Followed, NoMemory>
    requires epoch { (plan : Plan) × (first : MachineState) × IsFollowed plan verdicts.old.key verdicts.old.given first ledger.old.committed ledger.old.account
        × (words ≡ plan.words) }
    requires room { HasRoomForVerdicts tally.old ledger.old.committed }
    ensures key { verdicts.new.key ≡ verdicts.old.key }
    ensures given { verdicts.new.given ≡ verdicts.old.given + 1 }
    ensures followed { IfOk result (λ followed. FollowsVerdict words verdicts.old.key verdicts.old.given ledger.old ledger.new followed tally.old tally.new) }
{
    let rt = crew.rt();
    crew.await_one(verdicts);
    follow(alloc, rt, verdicts, words, ledger, tally)
}

/// Commits iterations as the verdicts of the other plan's epoch come, and lets their prints wait or writes them, as long as
/// they can be followed and are to be.
fn follow_verdicts<'p, 'v, 'u, E, R: Wait + Clock + Sync, K: Sink, G: Gate, W: Watch>(
    crew: &mut Crew<'_, 'u, E, R, G>,
    way: Way,
    alloc: Global,
    words: u32,
    verdicts: &mut LaneVerdicts<'u>,
    mut ledger: Ledger<'p, 'v>,
    sink: &mut K,
    tally: &mut Tally<W>,
) -> Result<Ledger<'p, 'v>, WriteFail>
    requires sink { K.faults sink.old < 2 ^ 64 - 1 }
    requires epoch { (plan : Plan) × (first : MachineState) × IsFollowed plan verdicts.old.key verdicts.old.given first ledger.committed ledger.account
        × (words ≡ plan.words) }
    requires room { HasRoomForVerdicts tally.old ledger.committed }
    ensures followed { (plan : Plan) → words ≡ plan.words →
        HasFollowed (λ first. IsFollowed plan verdicts.old.key verdicts.old.given first ledger.entry.committed ledger.entry.account) plan ledger.entry result
        (K.faults sink.old) (K.faults sink.new) (K.written sink.old) (K.written sink.new) tally.old tally.new }
{
    'verdicts: loop {
        let followed = follow_next(crew, alloc, words, verdicts, &mut ledger, tally)?;
        flush_if_many(alloc, &mut ledger.waiting, sink)?;
        match followed {
            Followed::Committed => {
                if !crew.follows_on(way, ledger.committed.steps()) {
                    return Ok(ledger);
                }
            }
            Followed::Left => return Ok(ledger),
        }
    }
}
