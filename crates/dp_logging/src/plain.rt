//! A plain part of `main`, of which a log tells nothing.
ghost use Rattle.std.specs.Prelude.{List, ℤ, ℕ, IfOk};
ghost use Rattle.dp_tree.specs.declared.Program.{Program as Tree};
ghost use Rattle.dp_tree.specs.Trace.{Run};
ghost use Rattle.dp_run.specs.Stretches.{Behind, Leads};

use crate::nowhere::Nowhere;
use dp_base::{End, NoMemory};
use dp_meaning::Machine;
use dp_run::{NoNativeCode, Tally, Unwatched, run_plain};
use std::alloc::Global;

/// Runs the plain part that comes next, if one does, and drops what it prints. Answers the run's end if that comes in it.
pub(crate) fn skip_plain(alloc: Global, machine: &mut Machine<'_>) -> Result<Option<End>, NoMemory>
    ensures { IfOk result (λ end. (p : Tree) (input : List ℤ) (fuel : ℕ) (run : Run) (n : ℕ) → Behind p input fuel run n machine.old →
        Leads p input fuel run n machine.new end) }
{
    let mut nowhere = Nowhere;
    let mut tally = Tally::new(Unwatched);
    match run_plain(alloc, &NoNativeCode, machine, &mut nowhere, &mut tally) {
        Ok(end) => Ok(end),
        Err(_) => Err(NoMemory),
    }
}
