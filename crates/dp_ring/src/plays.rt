//! What each step tells. These types are for the proofs alone.
ghost use Rattle.dp_ring.specs.Plays.{looks, draws, puts_in, takes_out, gives_on, collects, as_consumer, as_producer, without_worker, as_worker};

use crate::item::RingItem;
use crate::view::View;
use atomic_table::{Play, Split};
use std::marker::PhantomData;

/// A load of the awaited word.
pub struct Looks<T> {
    item: PhantomData<T>,
}

impl<T: RingItem> Play<Option<T>, View<T::Key>> for Looks<T> {
    ghost then = { looks T.is_put T.is_given };
}

/// A ticket was drawn.
pub struct Draws;

impl<T, Key> Play<Option<T>, View<Key>> for Draws {
    ghost then = { draws };
}

/// The producer put an item.
pub struct PutsIn<T> {
    item: PhantomData<T>,
}

impl<T: RingItem> Play<Option<T>, View<T::Key>> for PutsIn<T> {
    ghost then = { λ _ m _. puts_in T.is_ending m };
}

/// The worker took its ticket's item.
pub struct TakesOut;

impl<T, Key> Play<Option<T>, View<Key>> for TakesOut {
    ghost then = { λ _ m _. takes_out m };
}

/// The worker gave an item.
pub struct GivesOn<T> {
    item: PhantomData<T>,
}

impl<T: RingItem> Play<Option<T>, View<T::Key>> for GivesOn<T> {
    ghost then = { λ _ m _. gives_on T.is_ending m };
}

/// The consumer took an item.
pub struct Collects;

impl<T, Key> Play<Option<T>, View<Key>> for Collects {
    ghost then = { λ _ m _. collects m };
}

/// The first seat becomes the consumer's, and the new one the producer's.
pub struct Opens;

impl<Key> Split<View<Key>> for Opens {
    ghost left = { as_consumer };

    ghost right = { as_producer };
}

/// The new seat is a worker's.
pub struct Hires;

impl<Key> Split<View<Key>> for Hires {
    ghost left = { without_worker };

    ghost right = { as_worker };
}
