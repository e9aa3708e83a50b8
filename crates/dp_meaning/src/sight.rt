//! What is seen of a step.
use dp_base::{Fault, SiteId};

/// What the next step does, or why there is none.
#[derive(Clone, Copy)]
pub enum Sight {
    /// Nothing is left to do.
    Finished,
    /// The fuel is spent.
    Fuel,
    /// The evaluation faults.
    Fault(Fault),
    /// The site is evaluated, with this effect.
    Step { site: SiteId, effect: Effect },
}

/// What the evaluation of a site does.
#[derive(Clone, Copy)]
pub enum Effect {
    /// It stores a value into a cell.
    Stored { cell: usize, value: i64 },
    Printed(i64),
    /// The value of a condition.
    Decided(i64),
    /// The value of a break's condition.
    Tried(i64),
}
