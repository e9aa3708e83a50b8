//! What the rule of the turns says of words, slots and views alone.
ghost use Rattle.dp_ring.specs.RingRule.{TurnsAreRuled};

use crate::item::RingItem;

/// In each state that a ring can be in between two steps, the words show whose turn it is: each awaited ticket is the
/// least or the greatest of its slot, each ticket has one holder or is given, what a seat has found stands and is its
/// own, and a slot is full exactly where its word says so, with the item of its ticket.
#[tactic(auto, using(crate::proofs::Follows::turns_are_ruled))]
pub fn turns_are_ruled<T: RingItem>(key: &T::Key)
    ensures { TurnsAreRuled T.is_put T.is_given key.now }
{}
