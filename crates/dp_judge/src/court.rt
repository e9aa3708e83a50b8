//! The judging of an epoch over columns, batch after batch.
ghost use Rattle.std.specs.Prelude.{◌≡◌};
ghost use Rattle.dp_judge.specs.steps.Deciding.{end_of_status, end_of_decision};

use crate::judging::{Bench, Decision};
use crate::told::{ToldBatch, ToldEnd};
use dp_base::Cells;
use dp_columns::ReaderRoom;
use dp_lean_machine::{BatchStatus, LeanBatch, keep_rooms, readers_of};
use dp_room::Row;
use std::alloc::Global;

/// Judges the batches of an epoch, one after the other.
pub struct LeanCourt {
    alloc: Global,
    bench: Bench,
    /// The rooms of readers.
    rooms: Row<ReaderRoom>,
}

// By hand, so that a crate above doesn't prove again how all that the judging holds is dropped.
impl Drop for LeanCourt {
    fn drop(self) {
        let LeanCourt {
            alloc: _,
            bench: _,
            rooms: _,
        } = self;
    }
}

/// What stands behind clean iterations of a batch: behind all of them what its status says.
fn end_of(decision: Decision, status: BatchStatus) -> ToldEnd
    ensures { result ≡ end_of_decision decision status }
{
    match decision {
        Decision::Goes => end_behind(status),
        Decision::Closes => ToldEnd::Over,
        Decision::Unclean => ToldEnd::Unclean,
        Decision::NoMemory => ToldEnd::NoMemory,
    }
}

/// What stands behind all iterations of a batch that came to their end.
fn end_behind(status: BatchStatus) -> ToldEnd
    ensures { result ≡ end_of_status status }
{
    match status {
        BatchStatus::Going => ToldEnd::Over,
        BatchStatus::Closing => ToldEnd::Over,
        BatchStatus::Void => ToldEnd::Unclean,
        BatchStatus::NoMemory => ToldEnd::NoMemory,
    }
}

impl LeanCourt {
    ghost use Rattle.std.specs.Prelude.{◌-◌, [], ℕ, length};
    ghost use Rattle.dp_net.specs.NetPackets.{NetStatus};
    ghost use Rattle.dp_lean_epoch.specs.Coming.{LeanJudges};
    ghost use Rattle.dp_lean_region.specs.LeanEpoch.{LeanEpoch, IsLeanEpoch, HasJudgeLaws};
    ghost use Rattle.dp_lean_machine.specs.Sent.{AsStatus, IsSent};
    ghost use Rattle.dp_judge.specs.Judging.{Judges, GivesVerdicts};
    ghost use Rattle.dp_judge.specs.Decided.{cleans};
    ghost use Rattle.dp_judge.specs.steps.Adding.{IsUngiven};
    ghost use Rattle.dp_judge.specs.steps.Within.{CameTo};

    /// The judging where an epoch begins: in this memory, with the steps that are left of the fuel.
    pub fn new(alloc: Global, base: Cells, left: u64) -> LeanCourt
        ensures begins { (e : LeanEpoch) → IsLeanEpoch e → HasJudgeLaws e → LeanJudges e.key 0 e.key.base →
            e.key.base ≡ base → left ≡ e.key.fuel - e.key.steps → Judges result e 0 }
    {
        LeanCourt {
            alloc,
            bench: Bench::new(base, left),
            rooms: Row::new(alloc),
        }
    }

    /// What is decided of the iterations of a batch that came to their end, up to the first behind which none follows; they are told.
    fn decide<'p>(&mut self, batch: &LeanBatch<'p>, told: &mut ToldBatch) -> Decision
        requires ungiven { IsUngiven told.old }
        ensures came { (e : LeanEpoch) (b : ℕ) (ends : NetStatus) → AsStatus batch.now.status ends → Judges self.old e b →
            IsSent e (length e.key.plan.stages) b batch.now → cleans told.old ≡ [] →
            CameTo e b batch.now.iterations result self.new.bench.left self.new.bench.cells (cleans told.new) }
    {
        let stages = batch.stages();
        match readers_of(self.alloc, stages, &mut self.rooms) {
            Ok(readers) => {
                let mut readers = readers;
                let tables = batch.line().judging();
                let most = batch.iterations();
                let decision = self
                    .bench
                    .decide_all(tables, stages, most, &mut readers, told);
                keep_rooms(readers, &mut self.rooms);
                decision
            }
            Err(_) => Decision::NoMemory,
        }
    }

    /// .. unless memory was wanting for the batch.
    fn decide_known<'p>(&mut self, batch: &LeanBatch<'p>, told: &mut ToldBatch) -> Decision
        requires ungiven { IsUngiven told.old }
        ensures came { (e : LeanEpoch) (b : ℕ) → Judges self.old e b → IsSent e (length e.key.plan.stages) b batch.now →
            cleans told.old ≡ [] → CameTo e b batch.now.iterations result self.new.bench.left self.new.bench.cells (cleans told.new) }
    {
        match batch.status() {
            BatchStatus::NoMemory => Decision::NoMemory,
            BatchStatus::Going => self.decide(batch, told),
            BatchStatus::Closing => self.decide(batch, told),
            BatchStatus::Void => self.decide(batch, told),
        }
    }

    /// Tells the verdicts on a batch.
    pub fn judge<'p>(&mut self, batch: &LeanBatch<'p>, told: &mut ToldBatch)
        ensures gives { (e : LeanEpoch) (b : ℕ) → Judges self.old e b → IsSent e (length e.key.plan.stages) b batch.now →
            GivesVerdicts self.new e b batch.now.status told.new }
    {
        told.clear();
        let decision = self.decide_known(batch, told);
        told.end_with(end_of(decision, batch.status()));
    }
}
