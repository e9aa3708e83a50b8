//! The code of a stage where only what is needed of the earlier stages is read, and each site's values stand in a queue of their own.
//!
//! `specs/` says what a stage and the judge need, which part of the text is left to them, and what a turn over that part does.
//! The laws are that such a turn comes to what the turn over items comes to, and the judging to what the judgement of the packet is.
#![tactic(auto)]

mod law;

pub use law::{lean_judges_are_judges, lean_turns_are_turns, memories_go_on, packets_come};
