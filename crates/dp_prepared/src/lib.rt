//! A region made ready once for all its epochs: what its stages and its judge run on.
#![tactic(auto)]

mod preparing;
mod region;

pub use preparing::prepare;
pub use region::PreparedRegion;
