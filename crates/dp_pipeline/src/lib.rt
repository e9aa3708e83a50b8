//! The units of an epoch: each takes items, runs its stage on them, and sends what the stage makes, in polls that any
//! thread may make.
#![tactic(auto)]

mod bells;
mod carried;
mod ending;
mod growing;
mod judge;
mod judged;
mod judging;
mod keys;
mod making;
mod passage;
mod pipeline;
mod setting;
mod size;
mod source;
mod spare;
mod staffing;
mod staged;
mod start;
mod supply;
mod target;
mod tickets;
mod told;
mod trying;
mod unit;
mod verdicts;

pub use bells::bells_for;
pub use carried::Carried;
pub use judged::Judged;
pub use keys::{Begin, EpochKey, LaneKey};
pub use pipeline::Pipeline;
pub use size::CrewSize;
pub use spare::Spare;
pub use unit::Unit;
pub use verdicts::LaneVerdicts;
