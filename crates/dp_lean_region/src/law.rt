//! The laws of a region's epochs, as the contract of a function that does nothing.
ghost use Rattle.std.specs.Prelude.{◌≡◌, ◌≤◌, ℕ, true, false};
ghost use Rattle.dp_tree.specs.Inlined.{IsInlined};
ghost use Rattle.dp_plan.specs.GivenPlans.{IsPlan};
ghost use Rattle.dp_lean_epoch.specs.Steps.{keeps_memory};
ghost use Rattle.dp_lean_region.specs.Region.{IsFitting};
ghost use Rattle.dp_lean_region.specs.Laws.{AreLawful};

use dp_plan::Plan;
use dp_tree::Program;

/// Each epoch of the region is lean, its judge's laws hold, and all stand where it begins.
pub(crate) fn epochs_are_lawful(p: &Program, plan: &Plan)
    requires { IsFitting p.now plan.now }
    ensures { (most : ℕ) → ((s : ℕ) → keeps_memory p.now plan.now s ≡ false → most ≤ 1) → AreLawful p.now plan.now most }
{}

/// A plan that is given for an inlined program fits its region.
pub(crate) fn given_plans_fit(p: &Program, plan: &Plan)
    requires inlined { IsInlined p.now }
    requires is_plan { IsPlan p.now plan.now }
    ensures { IsFitting p.now plan.now }
{
    dp_theorem::given_plans_fit(p, plan);
}
