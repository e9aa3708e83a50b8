//! What each stage of a plan sees of the source's run, kept from event to event: so it is known of each iteration whether it is
//! clean, without any stage that runs.
#![tactic(auto)]

mod changed;
mod law;
mod looking;
mod marks;
mod memories;
mod shares;
mod views;

pub use law::views_tell;
pub use views::Views;
