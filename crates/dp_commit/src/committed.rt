//! The committed memory of a region.
ghost use Rattle.std.specs.Prelude.{◌≡◌, ◌<◌, ◌≤◌, ◌+◌, ◌-◌, ◌^◌, ◌++◌, ℕ, List, ℤ, None, IsTrue, IsErr, IfOk, OnErr, MatchResult};
ghost use Rattle.dp_meaning.specs.declared.ends.Part.TheVariants as part;
ghost use Rattle.dp_meaning.specs.MachineState.{MachineState, next_part, IsAnyRegion};
ghost use Rattle.dp_meaning.specs.Moved.{Spoiled};
ghost use Rattle.dp_meaning.specs.Watched.{WatchSpoiled, WatchedStep};
ghost use Rattle.dp_meaning.specs.IterationRun.{IterationRun};
ghost use Rattle.dp_meaning.specs.NextIteration.{end_of_iteration};
ghost use Rattle.dp_commit.specs.CommittedState.{Applied, BrokeOff, CarriesNext, ClosesOnce, CommittedState, CountsSteps, HoldsCommitted, IsOpen, RecoversFor};
ghost use Rattle.dp_commit.specs.CommittedState.{WhereEnded, count_after};

use crate::tally::Tally;
use crate::watch::Watch;
use dp_base::{Cells, NoMemory, Row};
use dp_judge::Clean;
use dp_meaning::{IterEnd, Loads, Machine, Part, Sight};
use std::marker::Model;

/// The memory and the steps of a region's committed iterations: a machine that stands behind them.
#[derive(Drop)]
pub struct Committed<'p> {
    machine: Machine<'p>,
    region: u32,
    count: u64,
}

impl<'p> Model for Committed<'p> {
    ghost use Rattle.dp_tree.specs.contracts.Expr as expr;
    ghost use Rattle.dp_tree.specs.contracts.Stmt as stmt;
    ghost use Rattle.std.specs.Coded.{codes};
    ghost use Rattle.dp_commit.specs.CommittedState.{CommittedState};

    ghost Value = { CommittedState };

    ghost coded = { Prim.hlevel (codes, expr.the_row.coded, stmt.the_row.coded) };

    ghost view = { λ c. record { machine = c.machine; region = c.region; count = c.count } };

    ghost use Rattle.dp_commit.specs.CommittedState.{CountsSteps};

    ghost invariant = { λ c. CountsSteps (record { machine = c.machine; region = c.region; count = c.count }) };
}

impl<'p> Committed<'p> {
    /// A region of which no step was made.
    pub fn begin(machine: Machine<'p>) -> Committed<'p>
        requires part { IsAnyRegion (next_part machine) }
        requires between { machine.current ≡ None }
        ensures { (region : ℕ) → next_part machine.entry ≡ part.Region region → result ≡ record { machine = machine.entry; region = region; count = 0 } }
    {
        let region = match machine.part() {
            Part::Region(region) => region,
            Part::Plain => unreachable!(),
            Part::Finished => unreachable!(),
        };
        Committed {
            machine,
            region,
            count: 0,
        }
    }

    /// The machine, behind the committed iterations and the steps of the last re-execution.
    pub fn finish(self) -> Machine<'p>
        ensures { result ≡ self.entry.machine }
    {
        let Committed {
            machine,
            region: _,
            count: _,
        } = self;
        machine
    }

    /// How many iterations were committed.
    pub fn count(&self) -> u64
        ensures value { result ≡ self.now.count }
        ensures steps { CountsSteps self.now }
    {
        self.count
    }

    /// The committed memory.
    pub fn cells(&self) -> &Cells
        ensures { result.now ≡ self.now.machine.config.cells }
    {
        self.machine.cells()
    }

    /// The number of steps made so far.
    pub fn steps(&self) -> u64
        ensures value { result ≡ self.now.machine.steps }
        ensures within { result ≤ self.now.machine.fuel }
    {
        self.machine.steps()
    }

    /// The greatest number of steps that may be made.
    pub fn fuel(&self) -> u64
        ensures { result ≡ self.now.machine.fuel }
    {
        self.machine.fuel()
    }

    /// Commits the next iteration from the pipeline. It takes no memory.
    pub fn apply<W: Watch>(&mut self, clean: Clean<'_>, tally: &mut Tally<W>)
        requires open { IsOpen self.old }
        requires next { CarriesNext self.old clean }
        requires tally { tally.old < 2 ^ 64 - 1 }
        ensures call { (out : List ℤ) → IterationRun self.old.region clean.entry.steps self.old.machine self.new.machine out (out ++ clean.entry.prints)
            (end_of_iteration clean.entry.closing) }
        ensures rest { self.new ≡ record self.old { machine = self.new.machine; count = self.old.count + 1 } }
        ensures tally { tally.new ≡ tally.old + 1 }
        ensures holds { (first : MachineState) → ClosesOnce first self.old.region → HoldsCommitted first self.old → HoldsCommitted first self.new }
    {
        self.machine
            .skip(clean.stores(), clean.steps(), clean.closing());
        let made = self.machine.steps();
        self.count += 1;
        tally.raise(made);
    }

    /// Counts the verdict on an iteration that was made step by step in place of [`Committed::apply`].
    pub fn confirm<W: Watch>(&self, clean: Clean<'_>, tally: &mut Tally<W>)
        requires made { (old : CommittedState) × CarriesNext old clean × Applied clean old self.now }
        requires tally { tally.old < 2 ^ 64 - 1 }
        ensures { tally.new ≡ tally.old + 1 }
    {
        drop(clean);
        tally.raise(self.machine.steps());
    }

    /// Executes the current iteration sequentially, at most `turns` steps of it, and appends what they print.
    pub fn recover(&mut self, turns: u32, out: &mut Row<i64>) -> Result<IterEnd, NoMemory>
        requires next { next_part self.old.machine ≡ part.Region self.old.region }
        requires turns { 0 < turns }
        ensures runs { MatchResult result (RecoversFor turns self.old self.new out.old out.new)
            (λ _. Spoiled turns self.old.machine self.new.machine out.old out.new) }
        ensures wanting { OnErr result (self.new ≡ record self.old { machine = self.new.machine }) }
        ensures spoiled { IsTrue self.old.machine.spoiled → IsErr result × (self.new ≡ self.old) × (out.new ≡ out.old) }
        ensures holds { (first : MachineState) → ClosesOnce first self.old.region → IsOpen self.old → HoldsCommitted first self.old →
            IfOk result (WhereEnded (HoldsCommitted first self.new) (BrokeOff first self.new)) }
    {
        let end = self.machine.iterate(turns, out)?;
        let _made = self.machine.steps();
        self.count += committed_by(end);
        Ok(end)
    }

    /// Makes the next step of the current iteration sequentially, and tells what it does and which cells it loads. It appends
    /// what the step prints.
    pub fn watch(
        &mut self,
        out: &mut Row<i64>,
        loads: &mut Loads,
    ) -> Result<(IterEnd, Sight), NoMemory>
        requires next { next_part self.old.machine ≡ part.Region self.old.region }
        ensures runs { IfOk result (λ seen. RecoversFor 1 self.old self.new out.old out.new seen.0) }
        ensures told { IfOk result (λ seen. WatchedStep seen.1 loads.new.cells self.old.machine self.new.machine) }
        ensures err { OnErr result (WatchSpoiled self.old.machine self.new.machine out.old out.new) }
        ensures wanting { OnErr result (self.new ≡ record self.old { machine = self.new.machine }) }
        ensures spoiled { IsTrue self.old.machine.spoiled → IsErr result × (self.new ≡ self.old) × (out.new ≡ out.old) }
    {
        let (end, seen) = self.machine.watch_iteration(out, loads)?;
        let _made = self.machine.steps();
        self.count += committed_by(end);
        Ok((end, seen))
    }
}

/// Whether the iteration has ended, as a number of iterations.
fn committed_by(end: IterEnd) -> u64
    ensures { (n : ℕ) → count_after n end ≡ n + result }
{
    match end {
        IterEnd::Next => 1,
        IterEnd::Closed => 1,
        IterEnd::Fault(_) => 0,
        IterEnd::Fuel => 0,
        IterEnd::Going => 0,
    }
}
