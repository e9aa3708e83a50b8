//! What the words after the program's name ask for.
#![tactic(auto)]

mod arguments;
mod commands;
mod numbers;
mod parsing;
mod reading;
mod task;
mod tasks;
mod usage;
mod verb;
mod verbs;

pub use task::{GenWords, Place, PlanOptions, PlanSource, PlanWords, ProfileWords, RunWords, Task};
pub use usage::{VERBS, complaint};
pub use verbs::asked;
