//! The log of a run as a text: what each iteration changed and printed, and whether it was committed or executed again.
#![tactic(auto)]

mod text;

use dp_base::CellId;
pub use text::{put_closed, put_first, put_group, put_region};

/// A cell that an iteration changed.
#[derive(Clone, Copy)]
pub struct SetOf {
    pub cell: CellId,
    /// What it holds behind the iteration.
    pub value: i64,
}
