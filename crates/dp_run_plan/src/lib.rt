//! Plans by which a region is run in place of the one by which it is answered: where neither hides anything from its stages.
//!
//! A least plan often cuts finer than pays. Where its stages see what the source has, a clean iteration of another plan is clean, so the region may be run
//! under
//! the other one, as long as its iterations are clean and have few steps; and an epoch of the plan itself may begin anywhere.
#![tactic(auto)]

mod fitting;
mod law;
mod making;
mod plans;
mod preparing;
mod region;

pub use law::{clean_iterations_are_alike, one_stage_runs_for, tables_tell_what_is_hidden};
pub use making::{hides_nothing, one_stage};
pub use plans::RunPlans;
pub use preparing::prepare;
pub use region::RunRegion;
