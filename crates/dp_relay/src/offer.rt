//! The sending half of a poll.
ghost use Rattle.std.specs.Prelude.{ℕ, Option};
ghost use Rattle.dp_relay.specs.UnitsKey.{UnitsKey};
ghost use Rattle.dp_relay.specs.Offers.{Offers};

use crate::ends::{Ends, Refused};
use crate::item::Item;
use crate::polled::Polled;
use crate::stage::Made;
use std::sync::Wait;

/// Sends what was made, or holds it.
pub(crate) fn offer<I: Item, O: Item, E: Ends<I, O>, R: Wait>(
    rt: &R,
    ends: &mut E,
    held: &mut Option<Made<O>>,
    ended: &mut bool,
    made: Made<O>,
) -> Polled
    requires { (key : UnitsKey) × (s : ℕ) × (place : Option ℕ) × (n : ℕ) × E.holds ends.old key s place n × O.is_sent key s n made.item }
    ensures { Offers E.ready E.holds E.taking E.sending E.ended O.is_sent O.is_last made ends.old ends.new ended.old ended.new held.new result }
{
    let Made { item, last } = made;
    match ends.send(rt, item) {
        Ok(()) => {
            *ended = last;
            *held = None;
            Polled::Moved
        }
        Err(Refused { item, why }) => {
            *held = Some(Made { item, last });
            Polled::Idle(why)
        }
    }
}
