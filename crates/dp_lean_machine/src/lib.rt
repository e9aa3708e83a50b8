//! The machines of a pipeline of columns: what goes from unit to unit for a batch of iterations, and what a stage makes of it.
//!
//! `specs/` says what a batch tells that a stage sends, and where a stage's machine stands between two batches.
#![tactic(auto)]

mod batch;
mod desk;
mod flat;
mod fresh;
mod keeping;
mod machine;
mod running;
mod turning;

pub use batch::{BatchStatus, LeanBatch, StageColumns};
pub use desk::{keep_rooms, readers_of};
pub use machine::{Kept, LeanMachine};
