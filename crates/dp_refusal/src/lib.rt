//! Why nothing is run, what each text is for, and the status and the line that say so.
#![tactic(auto)]

mod offence;
mod quantity;
mod refusal;
mod role;
mod status;

pub use offence::Offence;
pub use refusal::Refusal;
pub use role::{Role, role_of};
pub use status::end_status;
