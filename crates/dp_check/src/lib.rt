//! The rules on names, and the limits: a tree with names becomes a program with numbers, or is refused at its first
//! offending name.
#![tactic(auto)]

mod evaluation;
mod expr;
mod fail;
mod items;
mod law;
mod limits;
mod names;
mod numbers;
mod place;
mod program;
mod region;
mod simple;
mod sites;
mod statement;
mod trees;
mod uses;
mod variables;

pub use fail::CheckFail;
pub use law::{checked_programs, visible_names};
pub use program::check;
