//! What the stages of a region see, where causes are asked for.
ghost use Rattle.std.specs.Prelude.{◌≡◌, true, IfOk, OnErr};
ghost use Rattle.dp_semantics.specs.Cause as why_not;
ghost use Rattle.dp_semantics.specs.Reported.{reported};
ghost use Rattle.dp_view.specs.Following.{found_or_end};
ghost use Rattle.dp_view.specs.Viewed.{begun};
ghost use Rattle.dp_prepared.specs.Planned.{IsPlanned};
ghost use Rattle.dp_epoch.specs.Accounts.{cause_told, run_end, views_when};

use crate::ends::RegionEnd;
use dp_base::{Boxed, Cause, Cells, NoMemory};
use dp_plan::Plan;
use dp_tree::Program;
use dp_view::Views;
use std::alloc::Global;

/// What they see where the region begins with this memory, if causes are asked for.
pub(crate) fn views_for<'v>(
    alloc: Global,
    program: &'v Program,
    plan: &'v Plan,
    cells: &Cells,
    why: bool,
) -> Result<Option<Boxed<Views<'v>>>, NoMemory>
    requires { IsPlanned program.now plan.now }
    ensures views { IfOk result (λ views. views ≡ views_when why (begun program.now plan.now cells.now)) }
    ensures wanting { OnErr result (why ≡ true) }
{
    if !why {
        return Ok(None);
    }
    let views = Views::begin(alloc, program, plan, cells)?;
    let boxed = Boxed::new(alloc, views)?;
    Ok(Some(boxed))
}

/// Why an iteration was executed again whose re-execution ended so, if what they see is kept.
pub(crate) fn cause_of(views: &Option<Boxed<Views<'_>>>, end: Option<RegionEnd>) -> Option<Cause>
    ensures { result ≡ cause_told views.now end }
{
    match views {
        None => None,
        Some(boxed) => Some(cause_or(boxed.get().found(), end)),
    }
}

/// The failure that was found, or else the fault or the spent fuel.
fn cause_or(found: Option<Cause>, end: Option<RegionEnd>) -> Cause
    ensures { result ≡ found_or_end found (run_end end) }
{
    match found {
        Some(cause) => cause,
        None => end_cause(end),
    }
}

fn end_cause(end: Option<RegionEnd>) -> Cause
    ensures { result ≡ reported (why_not.end_cause (run_end end)) }
{
    match end {
        Some(RegionEnd::Fault(fault)) => Cause::Fault(fault),
        Some(RegionEnd::Fuel) => Cause::Fuel,
        Some(RegionEnd::Closed) => Cause::Fuel,
        None => Cause::Fuel,
    }
}
