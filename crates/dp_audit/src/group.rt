//! What is told of an iteration.
use dp_base::Row;
use dp_log::SetOf;
use dp_meaning::IterEnd;

/// An iteration that was made to its end, or to the end of the run.
#[derive(Drop)]
pub struct Group {
    /// Its number, from 0.
    pub iteration: u64,
    /// Whether it was executed again.
    pub again: bool,
    /// The cells that it changed, in ascending order, without the region's body locals.
    pub sets: Row<SetOf>,
    pub prints: Row<i64>,
    /// How it ended, and never [`IterEnd::Going`].
    pub end: IterEnd,
}
