//! A law of texts that explain plans, as a contract of a function that does nothing.
ghost use Rattle.std.specs.Prelude.{◌≡◌, ℕ, List, Option};
ghost use Rattle.dp_plan.specs.declared.Plan.{Plan};
ghost use Rattle.dp_profile.specs.declared.Profile.{Profile};
ghost use Rattle.dp_explain.specs.Explanation.{IsExplanation};

use dp_tree::Program;

/// There is one text that explains plans.
pub fn explanations_are_one(p: &Program)
    ensures { (profile : Option Profile) (rate : ℕ) (plans : List Plan) (text other : List ℕ) →
        IsExplanation p.now profile rate plans text → IsExplanation p.now profile rate plans other → text ≡ other }
{}
