//! What a unit does with each item.
ghost use Rattle.std.specs.Prelude.{◌≡◌, ◌-◌, ℕ, false, Option};
ghost use Rattle.dp_relay.specs.UnitsKey.{UnitsKey};
ghost use Rattle.dp_relay.specs.Places.{At, place_behind};

use crate::item::Item;
use dp_edge::Gate;

/// An item that a stage made, and whether it's the last.
#[derive(Drop)]
pub struct Made<O> {
    pub item: O,
    pub last: bool,
}

/// Makes an item of each item that comes.
pub trait Stage<I: Item, O: Item>: Drop {
    /// It is the stage of this number in the epoch, and may run on the items at these places.
    ghost stands: { Self → UnitsKey → ℕ → Option ℕ → Type 0 };

    /// Of what the stage before sends at a place it makes what it sends there itself.
    fn run<G: Gate>(&mut self, gate: &G, item: I) -> Made<O>
        ensures { (key : UnitsKey) (s : ℕ) (place : Option ℕ) (n : ℕ) → stands self.old key s place → At place n → I.is_sent key (s - 1) n item →
            O.is_sent key s n result.item × (result.last ≡ O.is_last key result.item) × (result.last ≡ false → stands self.new key s (place_behind place n)) };
}
