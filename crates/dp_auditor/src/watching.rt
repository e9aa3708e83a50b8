//! The source's steps, watched one by one.
ghost use Rattle.std.specs.Prelude.{List, IfOk};
ghost use Rattle.dp_tree.specs.Step.{Event};
ghost use Rattle.dp_view.specs.Heard.{Comes, WereMade};

use dp_base::{NoMemory, Row};
use dp_meaning::{Loads, Machine, Sight};
use dp_view::Views;

/// Makes the machine's steps up to this number of them, and keeps what each one does.
pub(crate) fn follow(
    machine: &mut Machine<'_>,
    until: u64,
    views: &mut Views<'_>,
    loads: &mut Loads,
    out: &mut Row<i64>,
) -> Result<(), NoMemory>
    ensures { IfOk result (λ _. (events later : List Event) → Comes machine.old until views.old.source events later →
        WereMade machine.new until views.old views.new events later) }
{
    while machine.steps() < until {
        out.clear();
        match machine.watch(out, loads)? {
            Sight::Step { site, effect } => views.event(site, effect, loads.cells.as_slice())?,
            Sight::Finished => return Ok(()),
            Sight::Fuel => return Ok(()),
            Sight::Fault(_) => return Ok(()),
        }
    }
    Ok(())
}
