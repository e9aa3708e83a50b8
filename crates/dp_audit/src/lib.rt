//! A region brought forward one iteration at a time on the calling thread, with what each iteration changed and printed.
#![tactic(auto)]

mod epochs;
mod group;
mod known;
mod locals;
mod order;
mod runner;
mod stored;

pub use group::Group;
pub use runner::Runner;
