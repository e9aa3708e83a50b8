//! The rule of a lane's queue: what it holds, and what its two passes know.
ghost use Rattle.std.specs.Prelude.{◌≡◌, ◌≤◌, Option, None, length};
ghost use Rattle.dp_lane.specs.Views.{after_send, sent_by, TakesItem};

use crate::item::LaneItem;
use crossbeam_queue::protocol::{Lesson, Outcome, Protocol, Split};
use crossbeam_queue::{Pass, RuledArrayQueue};
use std::marker::Brand;

pub(crate) type Queue<T> = RuledArrayQueue<T, View<<T as LaneItem>::Key>, InOrder>;

pub(crate) type LanePass<T> = Pass<T, View<<T as LaneItem>::Key>>;

/// What a pass of a lane's queue knows. No value of it is made.
pub enum View<K> {
    /// It is the one pass of a new queue.
    Fresh,
    /// It has sent this many items of the key, and `ended` says whether the last one was an ending item.
    Sender { key: K, sent: u64, ended: bool },
    /// It has taken this many items of the key.
    Taker { key: K, taken: u64 },
    /// It takes no part.
    Spent,
}

/// What the queue holds are the items of a key that were sent and not taken.
pub struct InOrder;

impl<T: LaneItem> Protocol<T, View<T::Key>> for InOrder {
    ghost use Rattle.dp_lane.specs.declared.rule.View.TheVariants.{Fresh};
    ghost use Rattle.dp_lane.specs.Lane.{KeepsOrder};

    ghost holds = { KeepsOrder T.is_item };

    ghost first = { Fresh };
}

/// The key of a lane, for the proof alone. A call at `Brand` picks it.
pub(crate) trait Named<K> {
    ghost key: { Option K };
}

impl<K> Named<K> for Brand {
    ghost key = { None };
}

/// Makes a sender and a taker of the fresh pass.
pub(crate) struct Parted<J>(J);

impl<K, J: Named<K>> Split<View<K>> for Parted<J> {
    ghost use Rattle.dp_lane.specs.Views.{sender_of, taker_of};

    ghost left = { λ _. sender_of J.key };

    ghost right = { λ _. taker_of J.key };
}

/// An item was sent.
pub(crate) struct Sent;

impl<T: LaneItem> Outcome<T, View<T::Key>> for Sent {
    ghost then = { λ v x w. w ≡ after_send T.is_ending v x };
}

impl<T: LaneItem> Lesson<T, View<T::Key>> for Sent {
    ghost fact = { λ v items. length items ≤ sent_by v };
}

/// An item was taken.
pub(crate) struct Taken;

impl<T: LaneItem> Outcome<T, View<T::Key>> for Taken {
    ghost then = { TakesItem T.is_item };
}

impl<T: LaneItem> Lesson<T, View<T::Key>> for Taken {
    ghost fact = { λ _ _. Unit {0} };
}
