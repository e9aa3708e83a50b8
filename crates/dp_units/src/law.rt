//! Laws of the order of units, as contracts of functions that do nothing.
ghost use Rattle.std.specs.Prelude.{◌≡◌, ◌≤◌, ◌<◌, ℕ, List, length, slice_index};
ghost use Rattle.dp_units.specs.Graph.{Walk};
ghost use Rattle.dp_units.specs.Order.{IsOrder, ArePlaces};

use crate::classes::Units;

/// Along a walk the places of the nodes' units don't fall.
#[tactic(auto, using(crate::proofs::PlaceLaws::along_walks))]
pub fn places_rise_along_walks(count: u32, edges: &[(u32, u32)], units: &Units)
    requires order { IsOrder count edges.now units.now.order }
    requires places { ArePlaces count edges.now units.now.order units.now.place_of }
    ensures { (a b : ℕ) → a < count → b < count → Walk edges.now a b → slice_index units.now.place_of a ≤ slice_index units.now.place_of b }
{}

/// Each unit in the order has the place at which it stands, so no place is empty.
#[tactic(auto, using(crate::proofs::PlaceLaws::place_of_leader))]
pub fn units_stand_at_their_places(count: u32, edges: &[(u32, u32)], units: &Units)
    requires order { IsOrder count edges.now units.now.order }
    requires places { ArePlaces count edges.now units.now.order units.now.place_of }
    ensures { (place : ℕ) → place < length units.now.order → slice_index units.now.place_of (slice_index units.now.order place) ≡ place }
{}

/// The least node stands first where walks lead from it to all others.
#[tactic(auto, using(crate::proofs::PlaceLaws::first_of_all))]
pub fn what_leads_to_all_stands_first(count: u32, edges: &[(u32, u32)], units: &Units)
    requires order { IsOrder count edges.now units.now.order }
    requires places { ArePlaces count edges.now units.now.order units.now.place_of }
    requires some { 0 < count }
    requires all { (b : ℕ) → b < count → Walk edges.now 0 b }
    ensures { slice_index units.now.place_of 0 ≡ 0 }
{}

/// The units of a graph have one order.
#[tactic(auto, using(crate::proofs::OrderOnce::one_order))]
pub fn units_have_one_order(count: u32, edges: &[(u32, u32)])
    ensures { (order other : List ℕ) → IsOrder count edges.now order → IsOrder count edges.now other → order ≡ other }
{}

/// Each node has one place in the order.
#[tactic(auto, using(crate::proofs::OrderOnce::same_places))]
pub fn nodes_have_one_place(count: u32, edges: &[(u32, u32)])
    ensures { (order places other : List ℕ) → IsOrder count edges.now order → ArePlaces count edges.now order places →
        ArePlaces count edges.now order other → places ≡ other }
{}
