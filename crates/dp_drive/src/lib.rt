//! The whole program but for its outside: `drive` reads the texts that the words name, and answers them.
#![tactic(auto)]

mod answer;
mod auditing;
mod batching;
mod law;
mod listing;
mod logging;
mod made;
mod others;
mod planning;
mod profiling;
mod running;
mod saving;
mod texts;
mod writing;

pub use answer::drive;
pub use law::{run_texts_agree, words_have_one_answer};
