//! The least cut of units with weights into the stages of a pipeline.
#![tactic(auto)]

mod bound;
mod limits;
mod needs;
mod places;

pub use places::cut_units;

/// Neighbouring units that form one stage.
#[derive(Clone, Copy)]
pub struct Stretch {
    /// How many there are, at least one.
    pub units: u32,
    /// Whether several workers take its iterations in turn.
    pub replicated: bool,
}
