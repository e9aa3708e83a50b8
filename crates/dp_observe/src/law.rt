//! A law of the definitions, as the contract of a function that does nothing.
ghost use Rattle.std.specs.Prelude.{ℕ, List, ℤ, ◌≤◌};
ghost use Rattle.dp_tree.specs.Inlined.{IsInlined};
ghost use Rattle.dp_tree.specs.Trace.{run_of, begin};
ghost use Rattle.dp_profile.specs.Observed.{observed};
ghost use Rattle.dp_profile.specs.ProfileFits.{ProfileFits, most_count};
ghost use Rattle.dp_observe.specs.Loads.{loads_made};

use dp_tree::Program;

/// What a run shows fits its program, so that what is written of it is read back: where neither its steps nor its loads are
/// more than a count may be.
#[tactic(auto, using(crate::proofs::FitLemmas::observed_fits))]
pub fn observed_profiles_fit(p: &Program)
    requires { IsInlined p.now }
    ensures { (input : List ℤ) (fuel : ℕ) → fuel ≤ most_count → loads_made (run_of p.now input fuel (begin p.now)).trace ≤ most_count →
        ProfileFits p.now (observed p.now input fuel).profile }
{}
