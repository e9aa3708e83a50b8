//! A clean iteration that is committed.
ghost use Rattle.std.specs.Prelude.{◌≡◌, ◌⊎◌, ◌<◌, ◌+◌, ◌-◌, ◌^◌, ◌++◌, length, true, false, is_some, OnErr, OnOk};
ghost use Rattle.dp_plan.specs.declared.Plan.{Plan};
ghost use Rattle.dp_meaning.specs.MachineState.{MachineState};
ghost use Rattle.dp_commit.specs.CommittedState.{Applied, CarriesNext, IsOpen};
ghost use Rattle.dp_epoch.specs.Accounts.{CountsClean};
ghost use Rattle.dp_epoch.specs.Progress.{Progress};

use crate::again::execute;
use crate::ledger::Ledger;
use dp_base::{NoMemory, Row};
use dp_commit::{Tally, Watch};
use dp_judge::Clean;
use std::alloc::Global;

impl<'p, 'v> Ledger<'p, 'v> {
    /// Commits a clean iteration, and lets its prints wait. Where causes are still listed it is made step by step, and the stages
    /// see each.
    pub fn commit<W: Watch>(
        &mut self,
        alloc: Global,
        clean: Clean<'_>,
        tally: &mut Tally<W>,
    ) -> Result<(), NoMemory>
        requires stands { (plan : Plan) × (first : MachineState) × Progress plan first self.old.committed self.old.account }
        requires next { CarriesNext self.old.committed clean }
        requires tally { tally.old < 2 ^ 64 - 1 }
        ensures ok { OnOk result (Applied clean.entry self.old.committed self.new.committed) }
        ensures account { OnOk result (CountsClean self.old.committed self.new.committed self.old.account self.new.account) }
        ensures waiting { OnOk result (self.new.waiting ≡ self.old.waiting ++ clean.entry.prints) }
        ensures tally { OnOk result (tally.new ≡ tally.old + 1) }
        ensures wanting { OnErr result ((0 < length clean.entry.prints) ⊎ (is_some self.old.account.views ≡ true)) }
    {
        if self.account.is_watched() {
            return self.retrace(alloc, clean, tally);
        }
        self.apply(clean, tally)
    }

    /// Commits it at once.
    fn apply<W: Watch>(&mut self, clean: Clean<'_>, tally: &mut Tally<W>) -> Result<(), NoMemory>
        requires open { IsOpen self.old.committed }
        requires unwatched { is_some self.old.account.views ≡ false }
        requires next { CarriesNext self.old.committed clean }
        requires tally { tally.old < 2 ^ 64 - 1 }
        ensures ok { OnOk result (Applied clean.entry self.old.committed self.new.committed) }
        ensures account { OnOk result (CountsClean self.old.committed self.new.committed self.old.account self.new.account) }
        ensures waiting { OnOk result (self.new.waiting ≡ self.old.waiting ++ clean.entry.prints) }
        ensures tally { OnOk result (tally.new ≡ tally.old + 1) }
        ensures wanting { OnErr result (0 < length clean.entry.prints) }
    {
        wait(&mut self.waiting, clean.prints())?;
        self.committed.apply(clean, tally);
        self.account.report.iterations = self.committed.count();
        Ok(())
    }

    /// Commits it step by step.
    fn retrace<W: Watch>(
        &mut self,
        alloc: Global,
        clean: Clean<'_>,
        tally: &mut Tally<W>,
    ) -> Result<(), NoMemory>
        requires stands { (plan : Plan) × (first : MachineState) × Progress plan first self.old.committed self.old.account }
        requires next { CarriesNext self.old.committed clean }
        requires tally { tally.old < 2 ^ 64 - 1 }
        ensures ok { OnOk result (Applied clean.entry self.old.committed self.new.committed) }
        ensures account { OnOk result (CountsClean self.old.committed self.new.committed self.old.account self.new.account) }
        ensures waiting { OnOk result (self.new.waiting ≡ self.old.waiting ++ clean.entry.prints) }
        ensures tally { OnOk result (tally.new ≡ tally.old + 1) }
    {
        let _end = execute(alloc, self)?;
        self.account.go_on();
        self.committed.confirm(clean, tally);
        self.account.report.iterations = self.committed.count();
        Ok(())
    }
}

/// Lets more prints wait.
fn wait(waiting: &mut Row<i64>, prints: &[i64]) -> Result<(), NoMemory>
    ensures ok { OnOk result (waiting.new ≡ waiting.old ++ prints.now) }
    ensures wanting { OnErr result (0 < length prints.now) }
{
    for print in prints {
        waiting.push(*print)?;
    }
    Ok(())
}
