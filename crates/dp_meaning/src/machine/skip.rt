//! An iteration of which it is known where it leads, made at once.
ghost use Rattle.std.specs.Prelude.{◌≡◌, ℕ, List, ℤ, ◌++◌, None};
ghost use Rattle.dp_tree.specs.Trace.{prints};
ghost use Rattle.dp_tree.specs.Iteration.{iteration};
ghost use Rattle.dp_meaning.specs.MachineState.{next_part, rest_of_run, IsAnyRegion};
ghost use Rattle.dp_meaning.specs.IterationRun.{IterationRun};
ghost use Rattle.dp_meaning.specs.NextIteration.{NextIteration, end_of_iteration};

use super::Machine;
use crate::ends::Part;
use dp_base::StoreOf;

impl<'p> Machine<'p> {
    /// Makes the next iteration from what is known of it: stores that lead to the memory where it ends, its number of steps, and
    /// whether it leaves the region. The machine then stands where [`Machine::iterate`] brings it by all steps of that iteration.
    /// It takes no memory, and leaves a machine that answers `NoMemory` so.
    pub fn skip(&mut self, stores: &[StoreOf], steps: u64, closing: bool)
        requires part { IsAnyRegion (next_part self.old) }
        requires between { self.old.current ≡ None }
        requires known { (region : ℕ) → next_part self.old ≡ Part.Region region → NextIteration region self.old stores.now steps closing }
        ensures { (region : ℕ) (out : List ℤ) → next_part self.old ≡ Part.Region region →
            IterationRun region steps self.old self.new out (out ++ prints (iteration (rest_of_run self.old) region 0)) (end_of_iteration closing) }
    {
        self.position.skip(&self.code, stores, closing);
        self.steps += steps;
    }
}
