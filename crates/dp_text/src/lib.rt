//! The parts that texts are made of: lines and their words, decimal numbers, and labels with a number behind them.
#![tactic(auto)]

mod digits;
mod labels;
mod lines;
mod words;

pub use digits::value_upto;
pub use labels::put_labelled;
pub use lines::{LineGrammar, Reading, next_line, read_lines};
pub use words::{next_word, number, number_upto};
