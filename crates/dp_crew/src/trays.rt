//! Where units lie until their threads take them.
ghost use Rattle.std.specs.Prelude.{◌≡◌};

use dp_base::NoMemory;
use dp_pipeline::{LaneVerdicts, Unit};
use std::alloc::Global;
use std::mem;
use std::sync::{Mutex, Wait};

/// A unit lies here until its thread takes it out.
pub(crate) type Tray<'u> = Mutex<Option<Unit<'u>>>;

/// So many empty trays.
pub(crate) fn trays_for<'u>(alloc: Global, count: usize) -> Result<Vec<Tray<'u>>, NoMemory> {
    let mut trays = Vec::new(alloc);
    for _ in 0..count {
        trays.push(Mutex::new(None))?;
    }
    Ok(trays)
}

/// Lays this into the tray, and answers what lay there.
pub(crate) fn lay<'u, R: Wait>(
    rt: &R,
    tray: &Tray<'u>,
    unit: Option<Unit<'u>>,
) -> Option<Unit<'u>> {
    let mut lies = tray.lock(rt);
    mem::replace(&mut *lies, unit)
}

/// How many of the last units that the verdicts poll are to be handed over: all but the one that judges, which stands first then.
/// Judging takes no longer than what a stage does, and the caller has little else to do.
pub(crate) fn to_hand(verdicts: &mut LaneVerdicts<'_>) -> usize
    ensures { verdicts.new ≡ verdicts.old }
{
    verdicts.turn_units();
    verdicts.units().saturating_sub(1)
}
