//! An iteration that is executed again, sequentially.
ghost use Rattle.std.specs.Prelude.{◌≡◌, ◌<◌, ◌++◌, List, ℤ, None, IfOk, OnOk};
ghost use Rattle.dp_plan.specs.declared.Plan.{Plan};
ghost use Rattle.dp_meaning.specs.declared.ends.Part.TheVariants.{Region};
ghost use Rattle.dp_meaning.specs.MachineState.{MachineState, next_part};
ghost use Rattle.dp_epoch.specs.Accounts.{HearsOn};
ghost use Rattle.dp_epoch.specs.Applied.{steps_left};
ghost use Rattle.dp_epoch.specs.InEpoch.{AfterRecovery, IsUnclean, left_by_recovery};
ghost use Rattle.dp_epoch.specs.Prints.{prints_to_come};
ghost use Rattle.dp_epoch.specs.Remade.{Remade, iteration_end};

use crate::ends::RegionEnd;
use crate::ledger::Ledger;
use dp_base::NoMemory;
use dp_commit::{Tally, Watch};
use dp_meaning::IterEnd;
use std::alloc::Global;

/// The greatest number of steps of one call.
const TURNS: u32 = 65536;

/// Executes the iteration again that isn't clean, and lets its prints wait. A begun one is counted, listed and told. With
/// `None` a new epoch is to begin.
pub fn execute_again<W: Watch>(
    alloc: Global,
    ledger: &mut Ledger<'_, '_>,
    tally: &mut Tally<W>,
) -> Result<Option<RegionEnd>, NoMemory>
    requires unclean { (plan : Plan) × (first : MachineState) × IsUnclean plan first ledger.old.committed ledger.old.account }
    ensures ok { IfOk result (λ end. (plan : Plan) (first : MachineState) → IsUnclean plan first ledger.old.committed ledger.old.account →
        AfterRecovery plan first ledger.new.committed ledger.new.account end) }
    ensures prints { IfOk result (λ end. (printed : List ℤ) × Remade ledger.old.committed ledger.new.committed printed (iteration_end end)
        × (ledger.new.waiting ≡ ledger.old.waiting ++ printed)) }
    ensures ahead { IfOk result (λ end. (plan : Plan) (first : MachineState) → IsUnclean plan first ledger.old.committed ledger.old.account →
        prints_to_come plan first ledger.old.waiting ledger.old.committed.count ≡ left_by_recovery plan first ledger.new.waiting
        ledger.new.committed.count end) }
    ensures left { IfOk result (λ end. end ≡ None → steps_left ledger.new.committed < steps_left ledger.old.committed) }
    ensures why { OnOk result (ledger.new.account.why ≡ ledger.old.account.why) }
    ensures tally { tally.new ≡ tally.old }
{
    let number = ledger.committed.count();
    let begun = ledger.committed.steps() < ledger.committed.fuel();
    let end = execute(alloc, ledger)?;
    if begun {
        ledger.count_again(number, end)?;
        tally.again(ledger.committed.steps());
    }
    Ok(end)
}

/// Executes the current iteration to its end, and lets its prints wait.
pub(crate) fn execute(
    alloc: Global,
    ledger: &mut Ledger<'_, '_>,
) -> Result<Option<RegionEnd>, NoMemory>
    requires next { next_part ledger.old.committed.machine ≡ Region ledger.old.committed.region }
    ensures ok { IfOk result (λ end. (printed : List ℤ) × Remade ledger.old.committed ledger.new.committed printed (iteration_end end)
        × (ledger.new.waiting ≡ ledger.old.waiting ++ printed)) }
    ensures account { OnOk result (ledger.new.account ≡ record ledger.old.account { views = ledger.new.account.views }) }
    ensures heard { OnOk result (HearsOn ledger.old.committed.machine ledger.new.committed.machine ledger.old.account.views ledger.new.account.views) }
{
    'calls: loop {
        match ledger.recover(alloc, TURNS)? {
            IterEnd::Going => {}
            IterEnd::Next => return Ok(None),
            IterEnd::Closed => return Ok(Some(RegionEnd::Closed)),
            IterEnd::Fault(fault) => return Ok(Some(RegionEnd::Fault(fault))),
            IterEnd::Fuel => return Ok(Some(RegionEnd::Fuel)),
        }
    }
}
