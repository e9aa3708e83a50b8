//! What a pipeline may send where stages tell blocks of quiet statements by their net stores, and iterations go in batches.
//!
//! `specs/` has the definitions: which statements are quiet, where their blocks stand, what the stages send, and how it is judged, one iteration or several at
//! a time.
//! The laws are that what is decided stays, and that each list of a packet is what following the text asks for.
#![tactic(auto)]

mod law;

pub use law::{
    batch_verdicts_are_the_definitions, batches_follow_each_other, net_items_follow_the_text,
    net_verdicts_are_the_definitions,
};
