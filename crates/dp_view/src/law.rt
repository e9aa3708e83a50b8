//! The law of what is kept, as the contract of a function that does nothing.
ghost use Rattle.std.specs.Prelude.{◌≡◌, true};
ghost use Rattle.dp_semantics.specs.Fits.{fits_plan};
ghost use Rattle.dp_view.specs.Following.{ViewsFollow, ViewsTell};

use dp_plan::Plan;
use dp_tree::Program;

/// In each run that begins within `main`, what is kept behind an iteration's events tells whether the iteration is clean in its
/// epoch, and its cause where it isn't, and is what the next iteration begins with. The
/// events load from the memory that is kept.
pub fn views_tell(p: &Program, plan: &Plan)
    requires { fits_plan p.now plan.now ≡ true }
    ensures tell { ViewsTell p.now plan.now }
    ensures follow { ViewsFollow p.now plan.now }
{}
