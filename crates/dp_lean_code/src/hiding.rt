//! The cells that a stage's blocks hide.

ghost use Rattle.std.specs.Prelude.{◌≡◌, ◌<◌, ℕ, ◌==◌, ◌||◌, false, length, get_or, IfOk, OnOk};
ghost use Rattle.dp_plan.specs.declared.Plan.{Plan};
ghost use Rattle.dp_lean_code.specs.Known.{AreTablesOf, paying_marks};

use crate::LeanTables;
use crate::quiet::{first_at, is_home};
use dp_base::{NoMemory, Row};
use dp_tree::Program;
use std::alloc::Global;

/// There is a place for the cell.
fn make_room(marks: &mut Row<bool>, cell: u32) -> Result<(), NoMemory>
    ensures same { OnOk result ((c : ℕ) → get_or marks.new c false ≡ get_or marks.old c false) }
    ensures room { OnOk result (cell < length marks.new) }
{
    for _place in marks.len()..cell as usize + 1 {
        marks.push(false)?;
    }
    Ok(())
}

/// The cell is marked.
fn mark(marks: &mut Row<bool>, cell: u32) -> Result<(), NoMemory>
    ensures { OnOk result ((c : ℕ) → get_or marks.new c false ≡ ((cell == c) || get_or marks.old c false)) }
{
    make_room(marks, cell)?;
    marks.set(cell as usize, true);
    Ok(())
}

impl LeanTables {
    /// By cell: whether the stage's blocks don't tell what they store there. It is as long as needed.
    pub fn hidden(&self, alloc: Global, p: &Program, stage: u32) -> Result<Row<bool>, NoMemory>
        ensures { IfOk result (λ hidden. (plan : Plan) (c : ℕ) → AreTablesOf p.now plan self.now →
            get_or hidden c false ≡ (paying_marks p.now plan).hides stage c) }
    {
        let mut hidden = Row::new(alloc);
        for (place, home) in self.homes.as_slice().iter().enumerate() {
            if is_home(stage, *home) {
                mark(&mut hidden, first_at(p, place))?;
            }
        }
        Ok(hidden)
    }
}
