//! A stage's machine, from one batch to the next.
ghost use Rattle.std.specs.Prelude.{◌≡◌, ◌<◌, ◌≤◌, length, IfOk};
ghost use Rattle.dp_lean_machine.specs.Sent.{SameTold};

use crate::desk::Desk;
use crate::flat::flat_of;
use crate::keeping::kept_at_base;
use crate::running::run_batch;
use crate::{BatchStatus, LeanBatch};
use dp_base::{Cells, NoMemory};
use dp_engine::Versioned;
use dp_memory::{Version, VersionRoom};
use dp_plan::Plan;
use std::alloc::Global;
use std::mem;

/// What a stage keeps between two batches.
#[derive(Drop)]
pub enum Kept {
    /// The memory of a stage before a sequential one, or of the last.
    Cells(Cells),
    /// The memory of a stage before a replicated one.
    Versioned(Versioned),
    /// A replicated stage keeps nothing, and no stage does where memory was wanting.
    Nothing,
}

/// A stage's machine. It runs the stage's code on one batch after the other.
pub struct LeanMachine {
    alloc: Global,
    /// From 1.
    stage: usize,
    kept: Kept,
    /// None where memory was wanting.
    desk: Option<Desk>,
    /// How many cells the last version had that came with a batch.
    cells: u32,
}

// By hand, so that a crate above doesn't prove again how all that a machine holds is dropped.
impl Drop for LeanMachine {
    fn drop(self) {
        let LeanMachine {
            alloc: _,
            stage: _,
            kept: _,
            desk: _,
            cells: _,
        } = self;
    }
}

/// Takes the version out of the batch.
fn taken_version<'p>(batch: &mut LeanBatch<'p>) -> Option<Version>
    ensures version { result ≡ batch.old.version }
    ensures same { SameTold batch.old batch.new }
{
    batch.version.take()
}

/// Takes the room for a version out of the batch.
fn taken_room<'p>(batch: &mut LeanBatch<'p>) -> Option<VersionRoom>
    ensures same { SameTold batch.old batch.new }
    ensures version { batch.new.version ≡ batch.old.version }
{
    batch.room.take()
}

/// The room of a version that is spent is kept in the batch, for another one.
fn keep_room<'p>(batch: &mut LeanBatch<'p>, spent: Version)
    ensures same { SameTold batch.old batch.new }
    ensures version { batch.new.version ≡ batch.old.version }
{
    batch.room = Some(spent.into_room());
}

impl LeanMachine {
    ghost use Rattle.std.specs.Prelude.{◌-◌, ℕ};
    ghost use Rattle.dp_net.specs.NetPackets.{NetStatus};
    ghost use Rattle.dp_lean_epoch.specs.Coming.{LeanStands};
    ghost use Rattle.dp_lean_region.specs.LeanEpoch.{LeanEpoch, IsLeanEpoch, epoch_marks};
    ghost use Rattle.dp_lean_machine.specs.declared.machine.Kept.TheVariants as kept;
    ghost use Rattle.dp_lean_machine.specs.Sent.{AsStatus, IsSent};
    ghost use Rattle.dp_lean_machine.specs.Standing.{TakesNext, MachineStands, Passes};

    /// The machine of a stage where an epoch begins.
    pub fn new(
        alloc: Global,
        plan: &Plan,
        stage: usize,
        base: &Cells,
    ) -> Result<LeanMachine, NoMemory>
        requires { 0 < stage }
        ensures begins { IfOk result (λ m. (e : LeanEpoch) → IsLeanEpoch e → e.key.plan ≡ plan.now → stage ≤ length plan.now.stages →
            LeanStands (epoch_marks e) e.key stage 0 base.now → MachineStands m e 0) }
        ensures stage { IfOk result (λ m. m.stage ≡ stage) }
    {
        let kept = kept_at_base(alloc, plan, stage, base)?;
        let desk = Desk::new(alloc)?;
        Ok(LeanMachine {
            alloc,
            stage,
            kept,
            desk: Some(desk),
            cells: 0,
        })
    }

    /// Makes of a batch what the stage sends of it. One for which memory was wanting stays as it is.
    pub fn run<'p>(&mut self, batch: &mut LeanBatch<'p>)
        ensures sent { (e : LeanEpoch) (b : ℕ) → MachineStands self.old e b → IsSent e (self.old.stage - 1) b batch.old → Passes self.new e b batch.new }
        ensures stage { self.new.stage ≡ self.old.stage }
    {
        match batch.status {
            BatchStatus::NoMemory => {}
            BatchStatus::Going => self.go(batch),
            BatchStatus::Closing => self.go(batch),
            BatchStatus::Void => self.go(batch),
        }
    }

    /// The same where memory wasn't wanting.
    fn go<'p>(&mut self, batch: &mut LeanBatch<'p>)
        ensures sent { (e : LeanEpoch) (b : ℕ) (ends : NetStatus) → AsStatus batch.old.status ends → MachineStands self.old e b →
            IsSent e (self.old.stage - 1) b batch.old → Passes self.new e b batch.new }
        ensures stage { self.new.stage ≡ self.old.stage }
    {
        let desk = match self.desk.take() {
            Some(desk) => desk,
            None => return batch.wanting(),
        };
        match mem::replace(&mut self.kept, Kept::Nothing) {
            Kept::Cells(cells) => self.from_cells(desk, cells, batch),
            Kept::Versioned(both) => self.from_versioned(desk, both, batch),
            Kept::Nothing => self.from_version(desk, batch),
        }
    }

    /// By a stage before a sequential one.
    fn from_cells<'p>(&mut self, desk: Desk, cells: Cells, batch: &mut LeanBatch<'p>)
        ensures sent { (e : LeanEpoch) (b : ℕ) (ends : NetStatus) → AsStatus batch.old.status ends → TakesNext self.old.stage (kept.Cells cells) e b →
            IsSent e (self.old.stage - 1) b batch.old → Passes self.new e b batch.new }
        ensures stage { self.new.stage ≡ self.old.stage }
    {
        let place = self.stage.saturating_sub(1);
        let behind = run_batch(self.alloc, place, desk, cells, None, batch);
        self.kept = Kept::Cells(behind.memory);
        self.desk = Some(behind.desk);
    }

    /// By a stage before a replicated one: it sends along the memory with which it begins the batch.
    fn from_versioned<'p>(&mut self, desk: Desk, both: Versioned, batch: &mut LeanBatch<'p>)
        ensures sent { (e : LeanEpoch) (b : ℕ) (ends : NetStatus) → AsStatus batch.old.status ends →
            TakesNext self.old.stage (kept.Versioned both) e b →
            IsSent e (self.old.stage - 1) b batch.old → Passes self.new e b batch.new }
        ensures stage { self.new.stage ≡ self.old.stage }
    {
        let mut both = both;
        match both.snapshot(taken_room(batch)) {
            Ok(version) => {
                let place = self.stage.saturating_sub(1);
                let behind = run_batch(self.alloc, place, desk, both, Some(version), batch);
                self.kept = Kept::Versioned(behind.memory);
                self.desk = Some(behind.desk);
            }
            Err(_) => batch.wanting(),
        }
    }

    /// By a replicated stage, from the version that the batch brings.
    fn from_version<'p>(&mut self, desk: Desk, batch: &mut LeanBatch<'p>)
        ensures sent { (e : LeanEpoch) (b : ℕ) (ends : NetStatus) → AsStatus batch.old.status ends → TakesNext self.old.stage kept.Nothing e b →
            IsSent e (self.old.stage - 1) b batch.old → Passes self.new e b batch.new }
        ensures stage { self.new.stage ≡ self.old.stage }
    {
        let version = match taken_version(batch) {
            Some(version) => version,
            None => return batch.wanting(),
        };
        let place = self.stage.saturating_sub(1);
        match flat_of(self.alloc, &version, &mut self.cells) {
            Some(cells) => {
                let behind = run_batch(self.alloc, place, desk, cells, None, batch);
                self.kept = Kept::Nothing;
                self.desk = Some(behind.desk);
                keep_room(batch, version);
            }
            None => {
                let behind = run_batch(self.alloc, place, desk, version, None, batch);
                self.kept = Kept::Nothing;
                self.desk = Some(behind.desk);
                keep_room(batch, behind.memory);
            }
        }
    }
}
