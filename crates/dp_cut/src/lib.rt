//! The least plan of each region: the plan that the least cut of its units stands for.
#![tactic(auto)]

mod automatic;
mod law;
mod plan;
mod site_weights;
mod sums;

pub use automatic::{Wishes, few, least_plans, light_weights, units_of};
pub use law::{automatic_plans_are_one, least_plans_are_valid};
pub use plan::cut;
pub use sums::{at_site, weight_at};
