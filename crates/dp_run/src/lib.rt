//! A program from its start to its end: its plain parts on the sequential machine, its regions as pipelines, each under
//! its plan, and the text of it all.
#![tactic(auto)]

mod parts;
mod plain;
mod prepared;
mod program;
mod stretch;

pub use dp_commit::{Progress, Tally, Unwatched, Watch};
pub use dp_epoch::CrewSize;
pub use dp_meaning::{NativeCode, NoNativeCode};
pub use parts::run_parts;
pub use plain::run_plain;
pub use prepared::PreparedProgram;
pub use program::{RunOptions, end_of, run_program, write_end};
pub use stretch::run_stretch;
