//! Whether a region may be run under a plan that was made for it.
ghost use Rattle.std.specs.Prelude.{◌≡◌, true, IfSome};
ghost use Rattle.std.specs.Option.{option_copied};
ghost use Rattle.dp_tree.specs.Inlined.{IsInlined};
ghost use Rattle.dp_tree.specs.declared.Program.{Program};
ghost use Rattle.dp_plan.specs.GivenPlans.{IsPlan};
ghost use Rattle.dp_run_plan.specs.Others.{MayRunAs};
ghost use Rattle.dp_run_plan.specs.RunPlan.{RunsFor};

use crate::making::hides_nothing;
use dp_plan::{Plan, StageKind};

/// Whether the plan has a stage for workers.
fn has_workers(plan: &Plan) -> bool {
    for kind in plan.stages.as_slice() {
        if let StageKind::Par = kind {
            return true;
        }
    }
    false
}

/// Whether it cuts otherwise.
fn cuts_otherwise(plan: &Plan, other: &Plan) -> bool {
    plan.stage_of.as_slice() != other.stage_of.as_slice()
}

/// Whether both are of one region, assume nothing and hide nothing.
fn runs_for(plan: &Plan, other: &Plan) -> bool
    ensures { (p : Program) → IsInlined p → IsPlan p plan.now → IsPlan p other.now → result ≡ true → RunsFor p plan.now other.now }
{
    plan.region == other.region
        && plan.assume.is_empty()
        && other.assume.is_empty()
        && hides_nothing(plan)
        && hides_nothing(other)
}

/// The other plan, if there is one, it may be run in place of this one, and it may be worth it.
pub(crate) fn fitting<'p>(plan: &Plan, other: Option<&'p Plan>) -> Option<&'p Plan>
    ensures { (p : Program) → IsInlined p → IsPlan p plan.now → IfSome (option_copied other.entry) (IsPlan p) → MayRunAs p plan.now (option_copied result) }
{
    match other {
        Some(other) => {
            if has_workers(other) && cuts_otherwise(plan, other) && runs_for(plan, other) {
                Some(other)
            } else {
                None
            }
        }
        None => None,
    }
}
