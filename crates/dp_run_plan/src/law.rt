//! The laws of run plans, as contracts of functions that do nothing.

ghost use Rattle.std.specs.Prelude.{◌≡◌, true};
ghost use Rattle.dp_tree.specs.Inlined.{IsInlined};
ghost use Rattle.dp_plan.specs.GivenPlans.{IsPlan};
ghost use Rattle.dp_run_plan.specs.Others.{checks_nothing};
ghost use Rattle.dp_run_plan.specs.RunPlan.{hides_nothing, one_stage, RunsFor, CleanAlike, CleanAnywhere};

use dp_plan::Plan;
use dp_tree::Program;

/// Where a plan hides nothing, an iteration is clean or not wherever its epoch began. One that is clean under another such plan, with the same assumptions,
/// is clean under this one where it doesn't close the region and has no more steps than a stage may have words.
#[tactic(auto, using(crate::proofs::Alike::clean_anywhere, crate::proofs::Alike::clean_alike))]
pub fn clean_iterations_are_alike(p: &Program, plan: &Plan, other: &Plan)
    ensures anywhere { hides_nothing p.now plan.now ≡ true → CleanAnywhere p.now plan.now }
    ensures alike { RunsFor p.now plan.now other.now → CleanAlike p.now plan.now other.now }
{}

/// The one-stage form of a valid plan is a valid plan that hides nothing, and the plan's region may be run under it where the plan hides nothing either.
#[tactic(auto, using(crate::proofs::OneStageValid::one_stage_is_plan, crate::proofs::OneStage::one_stage_hides_nothing, crate::proofs::OneStage::one_stage_runs))]
pub fn one_stage_runs_for(p: &Program, plan: &Plan)
    requires inlined { IsInlined p.now }
    requires is_plan { IsPlan p.now plan.now }
    ensures is_plan { IsPlan p.now (one_stage plan.now) }
    ensures hides { hides_nothing p.now (one_stage plan.now) ≡ true }
    ensures runs { hides_nothing p.now plan.now ≡ true → RunsFor p.now plan.now (one_stage plan.now) }
{}

/// The table of a valid plan says yes of no site exactly where nothing is hidden.
#[tactic(auto, using(crate::proofs::Tables::table_tells))]
pub fn tables_tell_what_is_hidden(p: &Program, plan: &Plan)
    requires inlined { IsInlined p.now }
    requires is_plan { IsPlan p.now plan.now }
    ensures { checks_nothing plan.now ≡ hides_nothing p.now plan.now }
{}
