//! What runs show: a program is run step by step, and a profile of its regions is counted meanwhile.
#![tactic(auto)]

mod board;
mod columns;
mod counter;
mod frame;
mod law;
mod locals;
mod owners;
mod profile;
mod rows;
mod sparse;
mod tally;
mod watching;

pub use law::observed_profiles_fit;
pub use watching::observe;
