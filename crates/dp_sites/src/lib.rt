//! The sites of a region in text order, with what each reads and stores: which of them lie apart, and which a plan has checked.
#![tactic(auto)]

mod apart;
mod compared;
mod differing;
mod moving;
mod part;
mod place;
mod sites;
mod table;
mod touched;
mod walk;

pub use apart::Apart;
pub use compared::{Compared, checked_sites_have_stores, compared_stores};
pub use sites::{put_sites, sites_of};
pub use table::tabled;
pub use walk::{Question, ask_each, ask_region};
