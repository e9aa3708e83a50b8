//! Which columns a stage has: of which sites it keeps what they told for later stages and the judge, and in which form.
#![tactic(auto)]

mod form;
mod law;
mod reads;
mod stage_kinds;

pub use form::{FormedSite, SiteForm};
pub use law::kinds_keep_enough;
pub use stage_kinds::kinds;
