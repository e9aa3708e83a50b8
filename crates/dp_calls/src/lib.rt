//! What calls mean: with frames of their own, and expanded.
//!
//! `specs/` has both meanings. That of frames knows nothing of expansion.
#![tactic(auto)]

mod law;

pub use law::{
    expansion_is_inlined, expansion_keeps_numbers_small, expansion_keeps_starts,
    expansion_keeps_the_meaning, expansion_leaves_no_call, expansion_stores_at_home,
};
