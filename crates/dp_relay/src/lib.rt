//! A relay: it takes an item, has a stage make another of it, and sends that, in polls that any thread may make. Where the
//! items come from and where they go is left to its ends.
#![tactic(auto)]

mod advance;
mod ends;
mod item;
mod offer;
mod polled;
mod relay;
mod stage;

pub use ends::{Ends, Refused};
pub use item::Item;
pub use polled::{EndedWhy, IdleWhy, Polled};
pub use relay::Relay;
pub use stage::{Made, Stage};
