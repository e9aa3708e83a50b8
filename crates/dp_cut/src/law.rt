//! Laws of the automatic plans, as contracts of functions that do nothing.
ghost use Rattle.std.specs.Prelude.{◌≡◌, ◌<◌, ℕ, List, Option};
ghost use Rattle.dp_tree.specs.Inlined.{IsInlined};
ghost use Rattle.dp_plan.specs.declared.Plan.{Plan};
ghost use Rattle.dp_plan.specs.GivenPlans.{ArePlans};
ghost use Rattle.dp_profile.specs.declared.Profile.{Profile};
ghost use Rattle.dp_cut.specs.Automatic.{AreAutomatic};

use dp_tree::Program;

/// A program has one list of automatic plans.
#[tactic(auto, using(crate::proofs::PlansOnce::automatic_once))]
pub fn automatic_plans_are_one(p: &Program)
    ensures { (profile : Option Profile) (rate most workers : ℕ) (plans others : List Plan) →
        AreAutomatic p.now profile rate most workers plans → AreAutomatic p.now profile rate most workers others → plans ≡ others }
{}

/// The automatic plans of an inlined program are valid: none of the nine rules is broken, and all is within the limits of a plan.
#[tactic(auto, using(crate::proofs::PlansValid::automatic_valid))]
pub fn least_plans_are_valid(p: &Program)
    requires inlined { IsInlined p.now }
    ensures { (profile : Option Profile) (rate most workers : ℕ) (plans : List Plan) → most < 9 →
        AreAutomatic p.now profile rate most workers plans → ArePlans p.now plans }
{}
