//! A region from start to end: its epochs, one after the other, in threads, and its prints written.
#![tactic(auto)]

mod awaited;
mod begun;
mod choosing;
mod clock;
mod counting;
mod crew;
mod epoch;
mod epochs;
mod following;
mod pace;
mod recover;
mod region;
mod settling;
mod terms;
mod threads;
mod timed;
mod together;
mod trays;
mod trial;
mod waiting;
mod work;

pub use region::run_region;
pub use waiting::{flush, flush_if_many};
