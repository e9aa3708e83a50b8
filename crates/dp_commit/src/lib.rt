//! The committed memory of a region: clean iterations are applied to it, others are executed again on it. A watch is told how
//! that goes on.
#![tactic(auto)]

mod chosen;
mod committed;
mod tally;
mod watch;

pub use chosen::{Chosen, Ran};
pub use committed::Committed;
pub use tally::Tally;
pub use watch::{Progress, Unwatched, Watch};
