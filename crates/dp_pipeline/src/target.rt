//! Where a unit sends batches.
ghost use Rattle.std.specs.Prelude.{◌≡◌, ◌+◌, ℕ, IfErr, OnOk, OnErr};

use crate::carried::Carried;
use dp_lane::SendEnd;
use dp_relay::{IdleWhy, Refused};
use dp_ring::{ProducerSeat, PutBusy};
use std::sync::Wait;

/// Where a unit sends batches.
#[derive(Drop)]
pub enum Target<'p> {
    Lane(SendEnd<Carried<'p>>),
    /// The stage behind is replicated.
    Ring(ProducerSeat<Carried<'p>>),
}

impl<'p> Target<'p> {
    ghost use Rattle.dp_relay.specs.UnitsKey.{UnitsKey};
    ghost use Rattle.dp_pipeline.specs.Carried.{IsCarried, is_last_carried};
    ghost use Rattle.dp_relay.specs.Facts.{Sends};
    ghost use Rattle.dp_pipeline.specs.Standing.{Gets, target_facts, target_ended};

    /// Sends the next batch, or gives it back.
    pub(crate) fn send<R: Wait>(
        &mut self,
        rt: &R,
        item: Carried<'p>,
    ) -> Result<(), Refused<Carried<'p>>>
        requires { (key : UnitsKey) × (s : ℕ) × (n : ℕ) × Gets self.old key s n × IsCarried key s n item }
        ensures sent { OnOk result ((key : UnitsKey) (s n : ℕ) → Gets self.old key s n → IsCarried key s n item.entry → Gets self.new key s (n + 1)
            × (target_ended self.new ≡ is_last_carried key item.entry)) }
        ensures held { OnErr result ((key : UnitsKey) (s n : ℕ) → Gets self.old key s n → Gets self.new key s n) }
        ensures back { IfErr result (λ refused. refused.item ≡ item.entry) }
        ensures ended { OnErr result (target_ended self.new ≡ target_ended self.old) }
        ensures sending { Sends result (target_facts self.old) (target_facts self.new) }
    {
        match self {
            Target::Lane(end) => match end.send(rt, item) {
                Ok(()) => Ok(()),
                Err(item) => Err(Refused {
                    item,
                    why: IdleWhy::Full,
                }),
            },
            Target::Ring(seat) => match seat.put(item) {
                Ok(()) => Ok(()),
                Err(PutBusy { item, word }) => Err(Refused {
                    item,
                    why: IdleWhy::Busy { word },
                }),
            },
        }
    }
}
