//! An epoch of a pipeline whose stages send columns.
//!
//! `specs/` says what stands between two stages for a batch, and where a stage and the judge stand before an iteration.
//! The laws are that this is so where the epoch begins, and that one step of a stage, of a worker and of the judge keeps it.
#![tactic(auto)]

mod law;

pub use law::{
    batches_extend, batches_stand, columns_fill, epochs_begin, judges_step, midways_step,
    stages_step,
};
