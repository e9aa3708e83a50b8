//! The sequential machine: it runs a program from where it stands, part by part and iteration by iteration, and can stop
//! after any number of steps.
#![tactic(auto)]

mod act;
mod clearing;
mod code;
mod ends;
mod flat;
mod forms;
mod loads;
mod machine;
mod memory;
mod native;
mod node;
mod position;
mod sight;
mod site;
mod turn;

pub use ends::{IterEnd, Part, PartEnd};
pub use loads::Loads;
pub use machine::Machine;
pub use native::{NativeCode, NoNativeCode};
pub use sight::{Effect, Sight};
