//! Whether an outcome goes as the plan assumes.
ghost use Rattle.std.specs.Prelude.{◌≡◌};
ghost use Rattle.std.specs.List.{list_all};
ghost use Rattle.dp_tree.specs.Step as effect;
ghost use Rattle.dp_semantics.specs.Clean as clean;

use dp_base::SiteId;
use dp_plan::Plan;
use dp_tree::{Assume, Program};

/// The condition went so.
#[tactic(auto, unfolding(dp_base::specs::Arithmetic::is_zero))]
fn went(taken: bool, value: i64) -> bool
    ensures { result ≡ clean.went taken (effect.Decided value) }
{
    if value == 0 { !taken } else { taken }
}

/// The outcome at the site is as the assumption says, if it is about that site.
fn goes_as(site: SiteId, value: i64, assumed: &Assume) -> bool
    ensures { result ≡ clean.goes_as site.0 (effect.Decided value) assumed.now }
{
    assumed.site.0 != site.0 || went(assumed.taken, value)
}

/// A condition's value goes as the plan assumes.
pub(crate) fn decided_as_assumed(plan: &Plan, site: SiteId, value: i64) -> bool
    ensures { result ≡ list_all (clean.goes_as site.0 (effect.Decided value)) plan.now.assume }
{
    for assumed in plan.assume.as_slice() {
        if !goes_as(site, value, assumed) {
            return false;
        }
    }
    true
}

/// An early exit isn't taken, or stands in the first stage.
#[tactic(auto, unfolding(dp_base::specs::Arithmetic::is_zero))]
pub(crate) fn stays_late(program: &Program, plan: &Plan, site: SiteId, value: i64) -> bool
    ensures { result ≡ clean.stays_late program.now plan.now site.0 (effect.Tried value) }
{
    value == 0 || plan.stage(program, site) <= 1
}
