//! What a region's stages and its judge run on in a pipeline of columns, made once for all epochs: their lean codes with what is known of
//! their places, and the kinds of their columns. A line lends that, with an input.
//!
//! `specs/` says what is known of an epoch of such a region. The laws are that this is so of each.
#![tactic(auto)]

mod capping;
mod counting;
mod feeding;
mod judging;
mod kinds;
mod law;
mod line;
mod locals;
mod region;
mod stages;

pub use line::{JudgeTables, Line, ReadyStage};
pub use region::RegionTables;
