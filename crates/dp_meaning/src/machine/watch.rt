//! One step, with what it evaluates.
ghost use Rattle.std.specs.Prelude.{◌≡◌, ◌++◌, ℕ, IsTrue, IsErr, IfOk, OnErr};
ghost use Rattle.dp_meaning.specs.IterationRun.{IterationRun};
ghost use Rattle.dp_meaning.specs.MachineState.{next_part, IsAnyRegion};
ghost use Rattle.dp_meaning.specs.Watched.{sight_prints, WatchSpoiled, WatchedStep};
ghost use Rattle.dp_meaning.specs.steps.Stretch.{end_behind};

use super::Machine;
use crate::ends::{IterEnd, Part};
use crate::loads::Loads;
use crate::sight::Sight;
use crate::turn::Turn;
use dp_base::{NoMemory, Row};

impl<'p> Machine<'p> {
    /// Makes the next step, and tells what it does and which cells it loads. It appends what the step prints.
    pub fn watch(&mut self, out: &mut Row<i64>, loads: &mut Loads) -> Result<Sight, NoMemory>
        ensures ok { IfOk result (λ seen. WatchedStep seen loads.new.cells self.old self.new) }
        ensures err { OnErr result (WatchSpoiled self.old self.new out.old out.new) }
        ensures prints { IfOk result (λ seen. out.new ≡ out.old ++ sight_prints seen) }
        ensures spoiled { IsTrue self.old.spoiled → IsErr result × (self.new ≡ self.old) × (out.new ≡ out.old) }
    {
        if self.spoiled {
            return Err(NoMemory);
        }
        self.watch_next(out, loads)
    }

    /// The same, of a machine that isn't spoiled.
    fn watch_next(&mut self, out: &mut Row<i64>, loads: &mut Loads) -> Result<Sight, NoMemory>
        ensures ok { IfOk result (λ seen. WatchedStep seen loads.new.cells self.old self.new) }
        ensures err { OnErr result (WatchSpoiled self.old self.new out.old out.new) }
        ensures prints { IfOk result (λ seen. out.new ≡ out.old ++ sight_prints seen) }
    {
        if self.position.part(&self.code) == Part::Finished {
            return Ok(Sight::Finished);
        }
        if self.steps == self.fuel {
            return Ok(Sight::Fuel);
        }
        loads.clear();
        let turn = self.step(loads, out)?;
        if loads.wanting {
            self.spoiled = true;
            return Err(NoMemory);
        }
        match turn {
            Turn::Made { site, effect, .. } => Ok(Sight::Step { site, effect }),
            Turn::Fault(fault) => Ok(Sight::Fault(fault)),
        }
    }

    /// Makes the next step of the iteration that is under way, or else of the next one, as [`Machine::iterate`] does with one
    /// turn, and tells what it does and which cells it loads. It appends what the step prints.
    pub fn watch_iteration(
        &mut self,
        out: &mut Row<i64>,
        loads: &mut Loads,
    ) -> Result<(IterEnd, Sight), NoMemory>
        requires part { IsAnyRegion (next_part self.old) }
        ensures runs { (region : ℕ) → next_part self.old ≡ Part.Region region →
            IfOk result (λ seen. IterationRun region 1 self.old self.new out.old out.new seen.0) }
        ensures told { IfOk result (λ seen. WatchedStep seen.1 loads.new.cells self.old self.new) }
        ensures err { OnErr result (WatchSpoiled self.old self.new out.old out.new) }
        ensures spoiled { IsTrue self.old.spoiled → IsErr result × (self.new ≡ self.old) × (out.new ≡ out.old) }
    {
        if self.spoiled {
            return Err(NoMemory);
        }
        if self.steps == self.fuel {
            return Ok((IterEnd::Fuel, Sight::Fuel));
        }
        loads.clear();
        let turn = self.step(loads, out)?;
        if loads.wanting {
            self.spoiled = true;
            return Err(NoMemory);
        }
        match turn {
            Turn::Made { left, site, effect } => {
                let end = self.end_behind(left);
                Ok((end, Sight::Step { site, effect }))
            }
            Turn::Fault(fault) => Ok((IterEnd::Fault(fault), Sight::Fault(fault))),
        }
    }

    /// Why an iteration stops behind one step, by whether that left the region.
    fn end_behind(&self, left: bool) -> IterEnd
        ensures { result ≡ end_behind left self.now }
    {
        if left {
            return IterEnd::Closed;
        }
        if self.position.part(&self.code) != Part::Plain {
            return IterEnd::Next;
        }
        if self.steps == self.fuel {
            return IterEnd::Fuel;
        }
        IterEnd::Going
    }
}
