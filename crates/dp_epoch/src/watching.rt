//! The steps of an iteration, watched one by one.
ghost use Rattle.std.specs.Prelude.{◌≡◌, ◌<◌, ◌++◌, List, ℤ, IfOk, OnOk};
ghost use Rattle.dp_meaning.specs.declared.ends.Part.TheVariants.{Region};
ghost use Rattle.dp_meaning.specs.MachineState.{next_part};
ghost use Rattle.dp_view.specs.Heard.{Hears, after_sight};
ghost use Rattle.dp_epoch.specs.Remade.{Remade};

use dp_base::{NoMemory, Row};
use dp_commit::Committed;
use dp_meaning::{IterEnd, Loads, Sight};
use dp_view::Views;
use std::alloc::Global;

/// Makes at most `turns` steps of the current iteration, and appends what they print. The stages see each.
pub(crate) fn watch_steps(
    alloc: Global,
    committed: &mut Committed<'_>,
    views: &mut Views<'_>,
    turns: u32,
    waiting: &mut Row<i64>,
) -> Result<IterEnd, NoMemory>
    requires next { next_part committed.old.machine ≡ Region committed.old.region }
    requires turns { 0 < turns }
    ensures ok { IfOk result (λ end. (printed : List ℤ) × Remade committed.old committed.new printed end × (waiting.new ≡ waiting.old ++ printed)) }
    ensures heard { OnOk result (Hears committed.old.machine committed.new.machine views.old views.new) }
{
    let mut loads = Loads::new(alloc);
    let mut left = turns;
    'steps: loop {
        let end = watch_step(committed, views, &mut loads, waiting)?;
        left -= 1;
        if left == 0 {
            return Ok(end);
        }
        match end {
            IterEnd::Going => {}
            other => return Ok(other),
        }
    }
}

/// Makes the next step.
fn watch_step(
    committed: &mut Committed<'_>,
    views: &mut Views<'_>,
    loads: &mut Loads,
    waiting: &mut Row<i64>,
) -> Result<IterEnd, NoMemory>
    requires next { next_part committed.old.machine ≡ Region committed.old.region }
    ensures ok { IfOk result (λ end. (printed : List ℤ) × Remade committed.old committed.new printed end × (waiting.new ≡ waiting.old ++ printed)) }
    ensures heard { OnOk result (Hears committed.old.machine committed.new.machine views.old views.new) }
{
    let (end, seen) = committed.watch(waiting, loads)?;
    see(views, seen, loads)?;
    Ok(end)
}

/// The stages see what is seen of a step.
fn see(views: &mut Views<'_>, seen: Sight, loads: &Loads) -> Result<(), NoMemory>
    ensures { OnOk result (views.new ≡ after_sight seen loads.now.cells views.old) }
{
    match seen {
        Sight::Step { site, effect } => views.event(site, effect, loads.cells.as_slice()),
        Sight::Finished => Ok(()),
        Sight::Fuel => Ok(()),
        Sight::Fault(_) => Ok(()),
    }
}
