//! The law of the judge's code, as the contract of a function that does nothing.

ghost use Rattle.std.specs.Prelude.{◌≡◌, true};
ghost use Rattle.dp_tree.specs.Inlined.{IsInlined};
ghost use Rattle.dp_semantics.specs.Fits.{fits_plan};
ghost use Rattle.dp_lean_judge.specs.Stages.{HasStages};
ghost use Rattle.dp_lean_judge.specs.Laws.{JudgeCodeIsRight};

use dp_plan::Plan;
use dp_tree::Program;

/// The judge's code says what the lean judging says, from each memory and with each queue that a site may have.
pub fn judge_code_is_right(p: &Program, plan: &Plan)
    requires inlined { IsInlined p.now }
    requires fits { fits_plan p.now plan.now ≡ true }
    requires stages { HasStages p.now plan.now }
    ensures { JudgeCodeIsRight p.now plan.now }
{}
