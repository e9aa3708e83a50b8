//! The judge's flat code: what its ops do, one by one, and the judging of an iteration over what the stages tell, site by site.
//!
//! The law is that the code says what the lean judging says.
#![tactic(auto)]

mod collected;
mod judge;
mod law;
mod locals;
mod making;
mod reading;
mod ready;
mod stepping;

pub use collected::Collected;
pub use judge::{LeanJudged, lean_judge};
pub use law::judge_code_is_right;
pub use locals::clear;
pub use ready::{Entry, Ready, Seat};
