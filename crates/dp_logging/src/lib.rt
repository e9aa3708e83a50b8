//! A program run for its log: each region one iteration at a time, and the log written as the run goes on.
#![tactic(auto)]

mod lines;
mod nowhere;
mod parts;
mod plain;
mod pouring;
mod program;
mod region;
mod stretch;

pub use program::{LogOptions, log_program};
