//! From a program's text to its tree, by the grammar.
//!
//! The tokens of the whole text are read first, their depth is counted, and then a descent over them makes the tree.
#![tactic(auto)]

mod depth;
mod expression;
mod fail;
mod head;
mod item;
mod law;
mod level;
mod region;
mod source;
mod statement;

pub use fail::ParseFail;
pub use law::no_tokens_derive_two_programs;
pub use level::{Join, Level};
pub use source::parse;
