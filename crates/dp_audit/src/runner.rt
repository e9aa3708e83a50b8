//! A region, one iteration after the other.
ghost use Rattle.std.specs.Prelude.{◌≡◌, ◌<◌, ◌≤◌, List, ℤ, ℕ, Some, IfOk};
ghost use Rattle.dp_tree.specs.declared.Program.{Program as Tree};
ghost use Rattle.dp_plan.specs.declared.Plan.{Plan as PlanValue};
ghost use Rattle.dp_meaning.specs.declared.ends.IterEnd.TheVariants.{Next};
ghost use Rattle.dp_meaning.specs.MachineState.{MachineState};
ghost use Rattle.dp_epoch.specs.Applied.{steps_left};
ghost use Rattle.dp_epoch.specs.RegionRun.{RegionStart};
ghost use Rattle.dp_audit.specs.declared.group.Group.{Group as Told};
ghost use Rattle.dp_audit.specs.Runs.{RegionStands};
ghost use Rattle.dp_audit.specs.Groups.{GivesGroup};

mod making;

use crate::epochs::Epochs;
use crate::group::Group;
use crate::known::Known;
use dp_base::{NoMemory, RegionReport};
use dp_epoch::{CrewSize, Ledger};
use dp_meaning::{IterEnd, Machine};
use dp_pipeline::LaneVerdicts;
use dp_prepared::PreparedRegion;
use dp_stop::StopSetter;
use std::alloc::Global;
use std::sync::Wait;
use std::time::Clock;

/// A region that is brought forward one iteration at a time, as its pipeline does, but on the calling thread.
pub struct Runner<'s, 'q, 'p> {
    pub(crate) epochs: Epochs<'s, 'q>,
    pub(crate) ledger: Ledger<'p, 's>,
    pub(crate) known: Known,
    /// Those of the epoch under way. Where there are none, an epoch begins behind what is committed.
    pub(crate) verdicts: Option<LaneVerdicts<'s>>,
}

// By hand, so that a crate above doesn't prove again how all that it holds is dropped.
impl<'s, 'q, 'p> Drop for Runner<'s, 'q, 'p> {
    fn drop(self) {
        let Runner {
            epochs: _,
            ledger: _,
            known: _,
            verdicts: _,
        } = self;
    }
}

impl<'s, 'q, 'p> Runner<'s, 'q, 'p>
where
    'p: 's,
{
    /// The prepared region, which comes next for the machine.
    pub fn begin(
        alloc: Global,
        region: &'s PreparedRegion<'q>,
        input: &'p [i64],
        machine: Machine<'p>,
        size: CrewSize,
    ) -> Result<Runner<'s, 'q, 'p>, NoMemory>
        requires start { RegionStart region.now.program region.now.plan input.now machine }
        requires fuel { machine.fuel ≤ 1000000000 }
        ensures { IfOk result (λ runner. RegionStands region.now.program region.now.plan input.now machine.entry 0 runner) }
    {
        let setter = StopSetter::new(alloc)?;
        let (program, plan) = (region.program(), region.plan());
        let known = Known::begin(alloc, program, plan.region, machine.cells())?;
        let ledger = Ledger::begin(alloc, machine, program, plan, false)?;
        let epochs = Epochs {
            alloc,
            region,
            input,
            size,
            setter,
        };
        Ok(Runner {
            epochs,
            ledger,
            known,
            verdicts: None,
        })
    }

    /// Makes the region's next iteration, after one that ended with [`IterEnd::Next`] or after none. `None` says that the fuel
    /// is spent before its condition. Behind any other end, behind `None` and behind `NoMemory` it isn't called again.
    pub fn next<R: Wait + Clock>(&mut self, rt: &R) -> Result<Option<Group>, NoMemory>
        requires stands { (p : Tree) × (plan : PlanValue) × (input : List ℤ) × (first : MachineState) × (n : ℕ) × RegionStands p plan input first n self.old }
        ensures given { IfOk result (λ given. (p : Tree) (plan : PlanValue) (input : List ℤ) (first : MachineState) (n : ℕ) →
            RegionStands p plan input first n self.old → GivesGroup p plan input first n self.new given) }
        ensures left { IfOk result (λ given. (group : Told) → given ≡ Some group → group.end ≡ Next →
            steps_left self.new.ledger.committed < steps_left self.old.ledger.committed) }
    {
        let begun = self.ledger.committed.steps() < self.ledger.committed.fuel();
        let group = self.make(rt)?;
        if begun {
            return Ok(Some(group));
        }
        Ok(None)
    }

    /// The machine, behind the last iteration.
    pub fn finish(self) -> Machine<'p>
        ensures { result ≡ self.entry.ledger.committed.machine }
    {
        let (machine, _report) = self.settle();
        machine
    }

    /// The machine, behind the last iteration, and the report of the iterations.
    pub fn settle(self) -> (Machine<'p>, RegionReport)
        ensures machine { result.0 ≡ self.entry.ledger.committed.machine }
        ensures report { result.1 ≡ self.entry.ledger.account.report }
    {
        let Runner {
            epochs: _,
            ledger,
            known: _,
            verdicts: _,
        } = self;
        let Ledger {
            committed,
            account,
            waiting: _,
        } = ledger;
        (committed.finish(), account.into_report())
    }

    /// The report of the iterations so far.
    pub fn report(&self) -> &RegionReport
        ensures { result.now ≡ self.now.ledger.account.report }
    {
        &self.ledger.account.report
    }
}
