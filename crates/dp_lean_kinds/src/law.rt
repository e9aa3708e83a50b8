//! The law of what is kept, as the contract of a function that does nothing.

ghost use Rattle.std.specs.Prelude.{◌≡◌, true};
ghost use Rattle.dp_tree.specs.Inlined.{IsInlined};
ghost use Rattle.dp_semantics.specs.Fits.{fits_plan};
ghost use Rattle.dp_lean_kinds.specs.Keeping.{KindsKeepEnough};

use dp_plan::Plan;
use dp_tree::Program;

/// What is kept of each stage is enough for later stages and the judge, and the kinds of each stage have places for it.
pub fn kinds_keep_enough(p: &Program, plan: &Plan)
    requires inlined { IsInlined p.now }
    requires fits { fits_plan p.now plan.now ≡ true }
    ensures { KindsKeepEnough p.now plan.now }
{}
