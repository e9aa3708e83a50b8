//! Room: a list and a box that contracts see as what they hold, and the one answer where memory was wanting.
#![tactic(auto)]

mod boxed;
mod memory;
mod row;

pub use boxed::Boxed;
pub use row::Row;

/// The answer where memory was wanting. `?` makes it of the allocator's errors.
#[derive(Clone, Copy, Debug)]
pub struct NoMemory;
