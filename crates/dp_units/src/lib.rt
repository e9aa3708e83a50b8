//! The units of a directed graph: its classes of nodes that reach each other, and their order.
#![tactic(auto)]

mod between;
mod build;
mod classes;
mod free;
mod graph;
mod law;
mod leaders;
mod mark;
mod search;

pub use build::units;
pub use classes::Units;
pub use law::{
    nodes_have_one_place, places_rise_along_walks, units_have_one_order,
    units_stand_at_their_places, what_leads_to_all_stands_first,
};
