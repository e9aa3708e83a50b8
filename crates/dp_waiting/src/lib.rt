//! What a thread does while it waits for those beside it: it spins, lets others run, and sleeps until a bell rings.
#![tactic(auto)]

mod bell;
mod beside;
mod patience;
mod pause;

pub use bell::{Bell, ring_all, ring_at};
pub use pause::Pause;
