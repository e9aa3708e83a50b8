//! One program under its plans on many inputs: the text of each run, in the inputs' order.
#![tactic(auto)]

mod joining;
mod many;
mod seats;
mod sharing;
mod single;

pub use dp_list::{ListFail, read_list};
pub use many::batch;
pub use single::one;
