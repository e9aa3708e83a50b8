//! The outside as the system has it: files as a shelf, and standard output as a sink.
#![tactic(auto)]

mod file_shelf;
mod freed;
mod out_sink;
mod own_text;

pub use file_shelf::FileShelf;
pub use freed::keep_freed_memory;
pub use out_sink::OutSink;
pub use own_text::OwnText;
