//! The law of a lean text's code, as the contract of a function that does nothing.

ghost use Rattle.std.specs.Prelude.{◌≡◌, true};
ghost use Rattle.dp_tree.specs.Inlined.{IsInlined};
ghost use Rattle.dp_semantics.specs.Fits.{fits_plan};
ghost use Rattle.dp_lean_code.specs.Laws.{CodeIsRight};

use dp_plan::Plan;
use dp_tree::Program;

/// A stage's code ends its turn as the lean turn ends, from each memory and with each queue that a site may have.
pub fn lean_code_is_right(p: &Program, plan: &Plan)
    requires inlined { IsInlined p.now }
    requires fits { fits_plan p.now plan.now ≡ true }
    ensures { CodeIsRight p.now plan.now }
{}
