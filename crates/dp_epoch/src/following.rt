//! A verdict of another plan's epoch is followed: what it commits is committed under the region's own plan.
ghost use Rattle.std.specs.Prelude.{◌≡◌, ◌+◌, IfOk};
ghost use Rattle.dp_plan.specs.declared.Plan.{Plan};
ghost use Rattle.dp_meaning.specs.MachineState.{MachineState};
ghost use Rattle.dp_epoch.specs.Applied.{HasRoomForVerdicts};
ghost use Rattle.dp_epoch.specs.Followed.{FollowsVerdict, IsFollowed};

use crate::ledger::Ledger;
use crate::verdicts::Verdicts;
use dp_base::NoMemory;
use dp_commit::{Tally, Watch};
use dp_judge::Verdict;
use std::alloc::Global;
use std::sync::Wait;
use std::time::Clock;

/// What a verdict led to that is followed.
#[derive(Clone, Copy)]
pub enum Followed {
    /// The iteration is committed, and the next one comes.
    Committed,
    /// Nothing is committed: a new epoch of the region's own plan is to begin here.
    Left,
}

/// Takes the other plan's verdict on the next iteration. One that is clean, doesn't close the region and has no more steps than
/// a stage of the region's own plan may have words is committed; of any other nothing is.
pub fn follow<R: Wait + Clock, V: Verdicts, W: Watch>(
    alloc: Global,
    rt: &R,
    verdicts: &mut V,
    words: u32,
    ledger: &mut Ledger<'_, '_>,
    tally: &mut Tally<W>,
) -> Result<Followed, NoMemory>
    requires epoch { (plan : Plan) × (first : MachineState) × IsFollowed plan (V.key verdicts.old) (V.given verdicts.old) first ledger.old.committed
        ledger.old.account × (words ≡ plan.words) }
    requires room { HasRoomForVerdicts tally.old ledger.old.committed }
    ensures key { V.key verdicts.new ≡ V.key verdicts.old }
    ensures given { V.given verdicts.new ≡ V.given verdicts.old + 1 }
    ensures followed { IfOk result (λ followed. FollowsVerdict words (V.key verdicts.old) (V.given verdicts.old) ledger.old ledger.new followed
        tally.old tally.new) }
{
    verdicts.next(rt);
    match verdicts.verdict() {
        Verdict::Clean(clean) => {
            let closing = clean.closing();
            if closing {
                return Ok(Followed::Left);
            }
            let steps = clean.steps();
            if steps > words as u64 {
                return Ok(Followed::Left);
            }
            ledger.commit(alloc, clean, tally)?;
            Ok(Followed::Committed)
        }
        Verdict::Unclean => Ok(Followed::Left),
        Verdict::NoMemory => Err(NoMemory),
    }
}
