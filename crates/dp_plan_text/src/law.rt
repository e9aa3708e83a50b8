//! Laws of the definitions, as contracts of functions that do nothing.

ghost use Rattle.std.specs.Prelude.{ℕ, List};
ghost use Rattle.dp_tree.specs.Inlined.{IsInlined};
ghost use Rattle.dp_plan.specs.declared.Plan.{Plan as plan};
ghost use Rattle.dp_plan_text.specs.Refused.{StandsFor};
ghost use Rattle.dp_plan_text.specs.WrittenText.{plans_text};
ghost use Rattle.dp_plan.specs.GivenPlans.{ArePlans};
ghost use Rattle.dp_plan_text.specs.Refused.{ReadsOnlyPlans};

use dp_tree::Program;

/// What is written of plans of an inlined program is read back as these plans and nothing else.
#[tactic(auto, using(crate::proofs::ReadBack::read_back, crate::proofs::OneReading::read_back_only))]
pub fn written_plans_are_read(p: &Program)
    requires inlined { IsInlined p.now }
    ensures stand { (plans : List plan) → ArePlans p.now plans → StandsFor p.now (plans_text p.now plans) plans }
    ensures alone { (plans : List plan) → ArePlans p.now plans → ReadsOnlyPlans p.now (plans_text p.now plans) plans }
{}

/// What a text is read as are plans of the program, one for each region in order, so what is written of them is read back.
pub fn read_plans_are_plans(p: &Program)
    requires inlined { IsInlined p.now }
    ensures { (bytes : List ℕ) (plans : List plan) → StandsFor p.now bytes plans → ArePlans p.now plans }
{}
