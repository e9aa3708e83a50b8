//! What a built program does but for its text and its native code.
#![tactic(auto)]

mod answer;

pub use answer::{answer_text, answer_words};
