//! Calls expanded: a program whose every call is replaced by the bindings of its arguments and the body of its function.
//!
//! `specs/` says how large that program is, and when it is too large to be made.
#![tactic(auto)]

mod binding;
mod expr;
mod fail;
mod law;
mod names;
mod piece;
mod program;
mod site;
mod size;
mod statement;

pub use fail::InlineFail;
pub use law::sizes_count_sites;
pub use program::inline;
