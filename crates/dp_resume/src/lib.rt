//! Runs that are saved before an iteration of a region, and runs that go on from there.
#![tactic(auto)]

mod law;
mod merge;
mod reach;
mod regions;
mod rest;
mod resume;
mod save;

pub use law::{resumed_text_goes_on, saved_checkpoints_are_read};
pub use resume::resume_program;
pub use save::{SaveEnd, SavePlace, save_program};
