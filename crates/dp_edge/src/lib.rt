//! The outside: what a program reads from, what it writes to, and the gate at the start of each stage run; with
//! implementations in memory, and the reader of input texts.
#![tactic(auto)]

mod gate;
mod hold_gate;
mod input;
mod mem_shelf;
mod mem_sink;
mod shelf;
mod sink;
mod writing;

pub use gate::{Gate, OpenGate};
pub use hold_gate::HoldGate;
pub use input::{InputFail, read_input};
pub use mem_shelf::{Held, MemShelf};
pub use mem_sink::MemSink;
pub use shelf::{Shelf, ShelfFail};
pub use sink::{PutFail, Sink};
pub use writing::{WriteFail, write};
