//! Plans that keep inner loops whole.
//!
//! The least plan may cut an inner loop into stages, so that values go forward in each of its turns. Here all sites of an outermost
//! inner loop are one unit of the cut, whatever depends on what. Nothing is answered by such a plan: it may only be run.
#![tactic(auto)]

mod joined;
mod whole;

pub use whole::whole_plans;
