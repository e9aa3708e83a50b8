//! A verdict of an epoch is taken.
ghost use Rattle.std.specs.Prelude.{◌≡◌, ◌+◌, IfOk};
ghost use Rattle.dp_meaning.specs.MachineState.{MachineState};
ghost use Rattle.dp_epoch.specs.Applied.{HasRoomForVerdicts};
ghost use Rattle.dp_epoch.specs.InEpoch.{InEpoch};
ghost use Rattle.dp_epoch.specs.Taken.{TakesVerdict};

use crate::ledger::Ledger;
use crate::verdicts::Verdicts;
use dp_base::NoMemory;
use dp_commit::{Tally, Watch};
use dp_judge::Verdict;
use std::alloc::Global;
use std::sync::Wait;
use std::time::Clock;

/// What a verdict led to.
#[derive(Clone, Copy)]
pub enum Taken {
    /// The iteration is committed, and the next one comes.
    Committed,
    /// The iteration is committed, and closed the region.
    Closed,
    /// The iteration isn't clean, and is to be executed again.
    Unclean,
}

/// Takes the verdict on the epoch's next iteration, and commits the iteration where it is clean.
pub fn take<R: Wait + Clock, V: Verdicts, W: Watch>(
    alloc: Global,
    rt: &R,
    verdicts: &mut V,
    ledger: &mut Ledger<'_, '_>,
    tally: &mut Tally<W>,
) -> Result<Taken, NoMemory>
    requires epoch { (first : MachineState) × InEpoch (V.key verdicts.old) (V.given verdicts.old) first ledger.old.committed ledger.old.account }
    requires room { HasRoomForVerdicts tally.old ledger.old.committed }
    ensures key { V.key verdicts.new ≡ V.key verdicts.old }
    ensures given { V.given verdicts.new ≡ V.given verdicts.old + 1 }
    ensures taken { IfOk result (λ taken. TakesVerdict (V.key verdicts.old) (V.given verdicts.old) ledger.old ledger.new taken tally.old tally.new) }
{
    verdicts.next(rt);
    match verdicts.verdict() {
        Verdict::Clean(clean) => {
            let closing = clean.closing();
            ledger.commit(alloc, clean, tally)?;
            if closing {
                return Ok(Taken::Closed);
            }
            Ok(Taken::Committed)
        }
        Verdict::Unclean => Ok(Taken::Unclean),
        Verdict::NoMemory => Err(NoMemory),
    }
}
