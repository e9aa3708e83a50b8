//! What plans rest on, as a text: the dependences of each region, those that its plan minds, its units, the stores because of which sites
//! are checked, what goes forward between stages, and what a profile saw.
#![tactic(auto)]

mod checks;
mod edges;
mod forward;
mod law;
mod reasons;
mod shown;
mod weighed;

pub use law::explanations_are_one;
pub use reasons::explain;
