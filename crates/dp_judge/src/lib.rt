//! The judging of an epoch over batches of columns, and the verdicts on a batch, which are given one by one.
#![tactic(auto)]

mod clean;
mod court;
mod fuel;
mod judging;
mod parts;
mod told;
mod verdict;

pub use clean::Clean;
pub use court::LeanCourt;
pub use told::ToldBatch;
pub use verdict::Verdict;
