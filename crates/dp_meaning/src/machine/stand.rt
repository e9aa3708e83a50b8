//! Steps of a plain part that were made elsewhere.
ghost use Rattle.std.specs.Prelude.{◌≡◌, ◌≤◌, ◌+◌, List, ℤ, length};
ghost use Rattle.dp_tree.specs.Step.{standing};
ghost use Rattle.dp_meaning.specs.MachineState.{fuel_left, next_part};
ghost use Rattle.dp_meaning.specs.PartRun.{PartMoved};
ghost use Rattle.dp_meaning.specs.Places.{rest_at};
ghost use Rattle.dp_meaning.specs.steps.PlainSteps.{PlainSteps};

use super::Machine;
use crate::ends::Part;
use dp_base::Cells;

impl<'p> Machine<'p> {
    /// Stands where so many steps lead that were made elsewhere: at this place, in this memory. Where a region is next there,
    /// its body locals read 0.
    pub fn stand(&mut self, place: u32, cells: Cells, steps: u64)
        requires part { next_part self.old ≡ Part.Plain }
        requires long { length cells ≡ length self.old.config.cells }
        requires within { steps ≤ fuel_left self.old }
        requires led { (before : List ℤ) × (after : List ℤ) × PlainSteps self.old.program self.old.input self.old.config before
            (standing self.old.program (rest_at self.old.program place) cells) after steps }
        ensures state { self.new ≡ record self.old
            { config = standing self.old.program (rest_at self.old.program place) cells; steps = self.old.steps + steps } }
        ensures moved { (before after : List ℤ) → PlainSteps self.old.program self.old.input self.old.config before self.new.config after steps →
            PartMoved self.old self.new before after }
    {
        self.position.stand(&self.code, place, cells);
        self.steps += steps;
    }
}
