//! One iteration of a region after the other, without threads and without a sink: an epoch's pipeline, its verdicts, what they
//! commit, and the region's report.
#![tactic(auto)]

mod account;
mod again;
mod committing;
mod ends;
mod following;
mod ledger;
mod making;
mod report;
mod seeing;
mod taken;
mod verdicts;
mod watching;

pub use account::Account;
pub use again::execute_again;
pub use dp_pipeline::CrewSize;
pub use ends::{EpochEnd, RegionEnd};
pub use following::{Followed, follow};
pub use ledger::Ledger;
pub use making::pipeline_here;
pub use report::nothing_counted;
pub use taken::{Taken, take};
pub use verdicts::Verdicts;
