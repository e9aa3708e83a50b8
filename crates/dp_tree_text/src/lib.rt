//! A program as a tree in a text, from which it can be made again.
#![tactic(auto)]

mod expressions;
mod statements;
mod tree;
mod variables;

pub use tree::write_tree;
