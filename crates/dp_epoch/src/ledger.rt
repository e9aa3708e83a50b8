//! What is kept of a region between its iterations.
ghost use Rattle.std.specs.Prelude.{◌≡◌, ◌<◌, ◌-◌, ◌^◌, ◌++◌, [], ℕ, List, ℤ, length, true, None, IfOk, OnErr, OnOk};
ghost use Rattle.dp_meaning.specs.declared.ends.Part.TheVariants as part;
ghost use Rattle.dp_meaning.specs.MachineState.{IsAnyRegion, next_part};
ghost use Rattle.dp_prepared.specs.Planned.{IsPlanned};
ghost use Rattle.dp_epoch.specs.Accounts.{CountsAgain, HearsOn, begun_account};
ghost use Rattle.dp_epoch.specs.Remade.{Remade};

use crate::account::Account;
use crate::ends::RegionEnd;
use crate::watching::watch_steps;
use dp_base::{NoMemory, Row};
use dp_commit::Committed;
use dp_meaning::{IterEnd, Machine};
use dp_plan::Plan;
use dp_tree::Program;
use std::alloc::Global;

/// What is committed of a region, what is told of it, and the prints that wait to be written.
#[derive(Drop)]
pub struct Ledger<'p, 'v> {
    pub committed: Committed<'p>,
    pub account: Account<'v>,
    pub waiting: Row<i64>,
}

impl<'p, 'v> Ledger<'p, 'v> {
    /// Of the plan's region, of which no iteration is committed, and nothing is reported. `why` says whether causes are asked for.
    pub fn begin(
        alloc: Global,
        machine: Machine<'p>,
        program: &'v Program,
        plan: &'v Plan,
        why: bool,
    ) -> Result<Ledger<'p, 'v>, NoMemory>
        requires part { IsAnyRegion (next_part machine) }
        requires between { machine.current ≡ None }
        requires planned { IsPlanned program.now plan.now }
        ensures committed { IfOk result (λ ledger. (region : ℕ) → next_part machine.entry ≡ part.Region region →
            ledger.committed ≡ record { machine = machine.entry; region = region; count = 0 }) }
        ensures account { IfOk result (λ ledger. ledger.account ≡ begun_account program.now plan.now machine.entry.config.cells why) }
        ensures waiting { IfOk result (λ ledger. ledger.waiting ≡ []) }
        ensures wanting { OnErr result (why ≡ true) }
    {
        let account = Account::begin(alloc, program, plan, machine.cells(), why)?;
        let committed = Committed::begin(machine);
        let waiting = Row::new(alloc);
        Ok(Ledger {
            committed,
            account,
            waiting,
        })
    }

    /// Executes the current iteration sequentially, at most `turns` steps of it, and lets what they print wait. Where causes are
    /// still listed the stages see each step.
    pub fn recover(&mut self, alloc: Global, turns: u32) -> Result<IterEnd, NoMemory>
        requires next { next_part self.old.committed.machine ≡ part.Region self.old.committed.region }
        requires turns { 0 < turns }
        ensures ok { IfOk result (λ end. (printed : List ℤ) × Remade self.old.committed self.new.committed printed end
            × (self.new.waiting ≡ self.old.waiting ++ printed)) }
        ensures account { OnOk result (self.new.account ≡ record self.old.account { views = self.new.account.views }) }
        ensures heard { OnOk result (HearsOn self.old.committed.machine self.new.committed.machine self.old.account.views self.new.account.views) }
    {
        match &mut self.account.views {
            None => self.committed.recover(turns, &mut self.waiting),
            Some(boxed) => {
                let (committed, waiting) = (&mut self.committed, &mut self.waiting);
                watch_steps(alloc, committed, boxed.get_mut(), turns, waiting)
            }
        }
    }

    /// Counts an iteration that was executed again, and whose re-execution ended so.
    pub fn count_again(&mut self, number: u64, end: Option<RegionEnd>) -> Result<(), NoMemory>
        requires number { number < 2 ^ 64 - 1 }
        requires again { self.old.account.report.recovered_count < 2 ^ 64 - 1 }
        ensures ok { OnOk result (CountsAgain number end self.old.account self.new.account) }
        ensures rest { self.new ≡ record self.old { account = self.new.account } }
        ensures wanting { OnErr result (length self.old.account.report.recovered < 1000) }
    {
        self.account.count_again(number, end)
    }
}
