//! Where a unit takes items, and where it sends them.
ghost use Rattle.std.specs.Prelude.{◌≡◌, ◌-◌, ℕ, Bool, Option, IfOk, IfErr, OnOk, OnErr};
ghost use Rattle.dp_relay.specs.UnitsKey.{UnitsKey};
ghost use Rattle.dp_relay.specs.Places.{At, place_behind};
ghost use Rattle.dp_relay.specs.Facts.{Facts, Stays, Takes, Sends};

use crate::item::Item;
use crate::polled::IdleWhy;
use std::sync::Wait;

/// An item that couldn't be sent yet, and why.
#[derive(Drop)]
pub struct Refused<O> {
    pub item: O,
    pub why: IdleWhy,
}

/// The ends that a unit takes from and sends on.
pub trait Ends<I: Item, O: Item>: Drop {
    /// They are those of the stage of this number, and the items at these places may come.
    ghost ready: { Self → UnitsKey → ℕ → Option ℕ → Type 0 };

    /// The item at the last place was taken, and what is made of it is to be sent.
    ghost holds: { Self → UnitsKey → ℕ → Option ℕ → ℕ → Type 0 };

    ghost taking: { Self → Facts };

    ghost sending: { Self → Facts };

    /// The item that was sent last was an ending one.
    ghost ended: { Self → Bool };

    fn take<R: Wait>(&mut self, rt: &R) -> Result<I, IdleWhy>
        requires { (key : UnitsKey) × (s : ℕ) × (place : Option ℕ) × ready self.old key s place }
        ensures took { IfOk result (λ item. (key : UnitsKey) (s : ℕ) (place : Option ℕ) → ready self.old key s place →
            (n : ℕ) × At place n × I.is_sent key (s - 1) n item × holds self.new key s place n) }
        ensures idle { OnErr result ((key : UnitsKey) (s : ℕ) (place : Option ℕ) → ready self.old key s place → ready self.new key s place) }
        ensures taking { Takes result (taking self.old) (taking self.new) }
        ensures sending { Stays (sending self.old) (sending self.new) }
        ensures ended { ended self.new ≡ ended self.old };

    fn send<R: Wait>(&mut self, rt: &R, item: O) -> Result<(), Refused<O>>
        requires { (key : UnitsKey) × (s : ℕ) × (place : Option ℕ) × (n : ℕ) × holds self.old key s place n × O.is_sent key s n item }
        ensures sent { OnOk result ((key : UnitsKey) (s : ℕ) (place : Option ℕ) (n : ℕ) → holds self.old key s place n → O.is_sent key s n item →
            ready self.new key s (place_behind place n) × (ended self.new ≡ O.is_last key item)) }
        ensures held { OnErr result ((key : UnitsKey) (s : ℕ) (place : Option ℕ) (n : ℕ) → holds self.old key s place n → holds self.new key s place n) }
        ensures back { IfErr result (λ refused. refused.item ≡ item) }
        ensures ended { OnErr result (ended self.new ≡ ended self.old) }
        ensures taking { Stays (taking self.old) (taking self.new) }
        ensures sending { Sends result (sending self.old) (sending self.new) };
}
