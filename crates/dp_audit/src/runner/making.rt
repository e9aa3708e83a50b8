//! The next iteration of a region: judged, and then committed or executed again.
ghost use Rattle.std.specs.Prelude.{◌≡◌, [], List, ℤ, ℕ, true, false, None, Some, IfOk, OnOk};
ghost use Rattle.dp_tree.specs.declared.Program.{Program as Tree};
ghost use Rattle.dp_plan.specs.declared.Plan.{Plan as PlanValue};
ghost use Rattle.dp_meaning.specs.MachineState.{MachineState};
ghost use Rattle.dp_pipeline.specs.Coming.{Coming};
ghost use Rattle.dp_epoch.specs.Remade.{iteration_end};
ghost use Rattle.dp_audit.specs.Runs.{CommitsNext, RegionStands, EpochUnderWay, Unclean};
ghost use Rattle.dp_audit.specs.Groups.{Makes};

use super::Runner;
use crate::group::Group;
use crate::stored::cells_of;
use dp_base::{NoMemory, Row};
use dp_commit::{Tally, Unwatched};
use dp_epoch::{RegionEnd, execute_again};
use dp_judge::{Clean, Verdict};
use dp_log::SetOf;
use dp_meaning::IterEnd;
use dp_pipeline::LaneVerdicts;
use std::mem;
use std::sync::Wait;
use std::time::Clock;

impl<'s, 'q, 'p> Runner<'s, 'q, 'p>
where
    'p: 's,
{
    /// Makes the next iteration, which isn't begun where no step is left.
    pub(crate) fn make<R: Wait + Clock>(&mut self, rt: &R) -> Result<Group, NoMemory>
        requires stands { (p : Tree) × (plan : PlanValue) × (input : List ℤ) × (first : MachineState) × (n : ℕ) × RegionStands p plan input first n self.old }
        ensures made { IfOk result (λ group. (p : Tree) (plan : PlanValue) (input : List ℤ) (first : MachineState) (n : ℕ) →
            RegionStands p plan input first n self.old → Makes p plan input first self.old.ledger.committed self.new group) }
    {
        let mut verdicts = self.current()?;
        verdicts.next(rt);
        match verdicts.verdict() {
            Verdict::Clean(clean) => {
                if clean.closing() {
                    return self.close(clean);
                }
                let group = self.go_on(clean)?;
                self.verdicts = Some(verdicts);
                Ok(group)
            }
            Verdict::Unclean => self.again(),
            Verdict::NoMemory => Err(NoMemory),
        }
    }

    /// The verdicts of the epoch under way, or of one that begins.
    fn current(&mut self) -> Result<LaneVerdicts<'s>, NoMemory>
        requires stands { (p : Tree) × (plan : PlanValue) × (input : List ℤ) × (first : MachineState) × (n : ℕ) × RegionStands p plan input first n self.old }
        ensures kept { OnOk result (self.new ≡ record self.old { verdicts = None }) }
        ensures verdicts { IfOk result (λ verdicts. (p : Tree) (plan : PlanValue) (input : List ℤ) (first : MachineState) (n : ℕ) →
            RegionStands p plan input first n self.old → EpochUnderWay plan first self.old.ledger verdicts) }
    {
        match self.verdicts.take() {
            Some(verdicts) => Ok(verdicts),
            None => self.epochs.begin(&self.ledger),
        }
    }

    /// Commits an iteration behind which the epoch goes on. Its verdicts are to be put back.
    fn go_on(&mut self, clean: Clean<'_>) -> Result<Group, NoMemory>
        requires judged { (p : Tree) × (plan : PlanValue) × (input : List ℤ) × (first : MachineState) × (v : Coming)
            × CommitsNext p plan input first self.old v clean }
        requires going { clean.closing ≡ false }
        ensures made { IfOk result (λ group. (p : Tree) (plan : PlanValue) (input : List ℤ) (first : MachineState) (v : Coming) →
            CommitsNext p plan input first self.old v clean.entry →
            Makes p plan input first self.old.ledger.committed (record self.new { verdicts = Some v }) group) }
    {
        let number = self.ledger.committed.count();
        let stored = cells_of(self.epochs.alloc, clean.stores())?;
        self.ledger
            .commit(self.epochs.alloc, clean, &mut Tally::new(Unwatched))?;
        let cells = self.ledger.committed.cells();
        let sets = self.known.changes_among(self.epochs.alloc, cells, stored)?;
        Ok(self.group(number, false, sets, IterEnd::Next))
    }

    /// Commits the closing iteration.
    fn close(&mut self, clean: Clean<'_>) -> Result<Group, NoMemory>
        requires judged { (p : Tree) × (plan : PlanValue) × (input : List ℤ) × (first : MachineState) × (v : Coming)
            × CommitsNext p plan input first self.old v clean }
        requires closing { clean.closing ≡ true }
        ensures made { IfOk result (λ group. (p : Tree) (plan : PlanValue) (input : List ℤ) (first : MachineState) (v : Coming) →
            CommitsNext p plan input first self.old v clean.entry → Makes p plan input first self.old.ledger.committed self.new group) }
    {
        let number = self.ledger.committed.count();
        self.ledger
            .commit(self.epochs.alloc, clean, &mut Tally::new(Unwatched))?;
        let cells = self.ledger.committed.cells();
        let sets = self.known.changes(self.epochs.alloc, cells)?;
        Ok(self.group(number, false, sets, IterEnd::Closed))
    }

    /// Executes the next iteration again.
    fn again(&mut self) -> Result<Group, NoMemory>
        requires unclean { (p : Tree) × (plan : PlanValue) × (input : List ℤ) × (first : MachineState) × Unclean p plan input first self.old }
        ensures made { IfOk result (λ group. (p : Tree) (plan : PlanValue) (input : List ℤ) (first : MachineState) →
            Unclean p plan input first self.old → Makes p plan input first self.old.ledger.committed self.new group) }
    {
        let number = self.ledger.committed.count();
        let end = execute_again(
            self.epochs.alloc,
            &mut self.ledger,
            &mut Tally::new(Unwatched),
        )?;
        let cells = self.ledger.committed.cells();
        let sets = self.known.changes(self.epochs.alloc, cells)?;
        Ok(self.group(number, true, sets, ended_so(end)))
    }

    /// The iteration with this number, whose prints wait.
    fn group(&mut self, iteration: u64, again: bool, sets: Row<SetOf>, end: IterEnd) -> Group
        ensures group { result ≡ record { iteration = iteration; again = again; sets = sets; prints = self.old.ledger.waiting; end = end } }
        ensures kept { self.new ≡ record self.old { ledger = record self.old.ledger { waiting = [] } } }
    {
        let none = Row::new(self.epochs.alloc);
        let prints = mem::replace(&mut self.ledger.waiting, none);
        Group {
            iteration,
            again,
            sets,
            prints,
            end,
        }
    }
}

/// How an iteration ended behind which the region goes on, or that ended so.
fn ended_so(end: Option<RegionEnd>) -> IterEnd
    ensures { result ≡ iteration_end end }
{
    match end {
        None => IterEnd::Next,
        Some(RegionEnd::Closed) => IterEnd::Closed,
        Some(RegionEnd::Fault(fault)) => IterEnd::Fault(fault),
        Some(RegionEnd::Fuel) => IterEnd::Fuel,
    }
}
