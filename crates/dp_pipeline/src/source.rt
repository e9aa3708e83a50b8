//! What a unit takes from.
ghost use Rattle.std.specs.Prelude.{◌+◌, ℕ, IfOk, OnErr};

use crate::carried::Carried;
use crate::start::Start;
use dp_lane::TakeEnd;
use dp_relay::IdleWhy;
use dp_ring::{Busy, ConsumerSeat};
use std::sync::Wait;

/// What a unit takes from.
#[derive(Drop)]
pub enum Source<'p> {
    /// The first stage takes from no other.
    Start(Start<'p>),
    Lane(TakeEnd<Carried<'p>>),
    /// The stage before is replicated.
    Ring(ConsumerSeat<Carried<'p>>),
}

impl<'p> Source<'p> {
    ghost use Rattle.dp_relay.specs.UnitsKey.{UnitsKey};
    ghost use Rattle.dp_pipeline.specs.Carried.{IsCarried};
    ghost use Rattle.dp_relay.specs.Facts.{Takes};
    ghost use Rattle.dp_pipeline.specs.Standing.{GivesBatches, source_facts};

    /// Takes the next batch.
    pub(crate) fn take<R: Wait>(&mut self, rt: &R) -> Result<Carried<'p>, IdleWhy>
        ensures took { IfOk result (λ item. (key : UnitsKey) (s n : ℕ) → GivesBatches self.old key s n → IsCarried key s n item
            × GivesBatches self.new key s (n + 1)) }
        ensures idle { OnErr result ((key : UnitsKey) (s n : ℕ) → GivesBatches self.old key s n → GivesBatches self.new key s n) }
        ensures taking { Takes result (source_facts self.old) (source_facts self.new) }
    {
        match self {
            Source::Start(start) => start.take(rt),
            Source::Lane(end) => match end.take(rt) {
                Some(item) => Ok(item),
                None => Err(IdleWhy::Empty),
            },
            Source::Ring(seat) => match seat.take() {
                Ok(item) => Ok(item),
                Err(Busy { word }) => Err(IdleWhy::Busy { word }),
            },
        }
    }
}
