//! The plans under which the regions of a program are run in place of their own.
ghost use Rattle.std.specs.Prelude.{◌≡◌, IfOk, slice_get};
ghost use Rattle.std.specs.Option.{option_copied};
ghost use Rattle.dp_run_plan.specs.Others.{plan_entry, other_of, others_of};

use crate::making::{hides_nothing, one_stage};
use dp_base::{NoMemory, Row};
use dp_plan::Plan;
use std::alloc::Global;
use std::marker::Model;

/// For each of several plans its one-stage form, or none; and for each of them a plan that keeps inner loops whole, or none of these.
pub struct RunPlans {
    others: Row<Option<Plan>>,
    wholes: Row<Plan>,
}

// By hand, so that a crate above doesn't prove again how all that it holds is dropped.
impl Drop for RunPlans {
    fn drop(self) {
        let RunPlans {
            others: _,
            wholes: _,
        } = self;
    }
}

impl Model for RunPlans {
    ghost use Rattle.dp_run_plan.specs.Others.{OtherPlans};

    ghost Value = { OtherPlans };

    ghost view = { λ r. record { others = r.others; wholes = r.wholes } };
}

/// The other plan of one, if it has one.
fn other_plan(alloc: Global, plan: &Plan, chooses: bool) -> Result<Option<Plan>, NoMemory>
    ensures { IfOk result (λ other. other ≡ other_of chooses plan.now) }
{
    if chooses && plan.stages.len() > 1 && hides_nothing(plan) {
        let other = one_stage(alloc, plan)?;
        return Ok(Some(other));
    }
    Ok(None)
}

impl RunPlans {
    /// The other plans of these, where others may be chosen. `wholes` has for each a plan of its region that keeps inner loops
    /// whole, or nothing.
    pub fn of(
        alloc: Global,
        plans: &[Plan],
        wholes: Row<Plan>,
        chooses: bool,
    ) -> Result<RunPlans, NoMemory>
        ensures { IfOk result (λ made. made ≡ record { others = others_of chooses plans.now; wholes = wholes }) }
    {
        let mut others = Row::with_capacity(alloc, plans.len())?;
        for plan in plans {
            let other = other_plan(alloc, plan, chooses)?;
            others.push(other)?;
        }
        Ok(RunPlans { others, wholes })
    }

    /// The other plan at a place, if there is one.
    pub(crate) fn at(&self, place: usize) -> Option<&Plan>
        ensures { option_copied result ≡ plan_entry (slice_get self.now.others place) }
    {
        match self.others.get(place) {
            Some(other) => other.as_ref(),
            None => None,
        }
    }

    /// The plan at a place that keeps inner loops whole, if there is one.
    pub(crate) fn whole_at(&self, place: usize) -> Option<&Plan>
        ensures { option_copied result ≡ slice_get self.now.wholes place }
    {
        self.wholes.get(place)
    }
}
