//! Columns: what the stages of a batch tell, site by site, in bare values; and how they are read.
//!
//! A place is a site's number less that of the region's first site. Contracts see the queues of each place, as `dp_lean` has them.
#![tactic(auto)]

mod column;
mod columns;
mod events;
mod law;
mod pairs;
mod putting;
mod reader;

pub use columns::Columns;
pub use law::columns_hold_the_queues;
pub use reader::{Reader, ReaderRoom};

/// A cell and a value.
#[derive(Clone, Copy)]
pub struct Pair {
    pub cell: u32,
    pub value: i64,
}

/// What is kept of the values of a site.
#[derive(Clone, Copy)]
pub enum ColumnKind {
    Nothing,
    /// The values alone: of stores to this cell, or, with 0, of prints or conditions.
    Value { cell: u32 },
    /// A cell and a value each time.
    Element,
    /// The net stores of a block that begins at the site.
    Block,
}
