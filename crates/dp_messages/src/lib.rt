//! What people are told on standard error: why something is refused, with the place in its text, how words are used, how
//! a run ended, how far it is, and by which plans its regions were run.
#![tactic(auto)]

mod advice;
mod answer;
mod byte;
mod choices;
mod counts;
mod expected;
mod files;
mod help;
mod input;
mod kept;
mod limits;
mod lines;
mod names;
mod near;
mod page;
mod progress;
mod reading;
mod reason;
mod refusals;
mod rules;
mod runs;
mod scope;
mod shown;
mod sizes;
mod source;
mod syntax;
mod telling;
mod tokens;
mod unread;

pub use choices::{Choices, asks_choices, tell_choices};
pub use kept::Kept;
pub use progress::Line;
pub use reason::{Finding, why};
pub use shown::Shown;
pub use telling::tell;
