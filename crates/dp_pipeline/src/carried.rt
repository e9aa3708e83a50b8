//! Batches that go from stage to stage.
ghost use Rattle.std.specs.Prelude.{◌-◌};
ghost use Rattle.dp_pipeline.specs.Carried.{IsCarried, is_last_carried};
ghost use Rattle.dp_pipeline.specs.Keys.{key_of};

use crate::keys::LaneKey;
use dp_base::Boxed;
use dp_judge::ToldBatch;
use dp_lane::LaneItem;
use dp_lean_machine::LeanBatch;
use dp_relay::Item;
use dp_ring::RingItem;

/// A batch of an epoch. What goes from unit to unit is moved often, so it is in boxes.
#[derive(Drop)]
pub struct Carried<'p> {
    pub batch: Boxed<LeanBatch<'p>>,
    /// Room for the verdicts: what it holds means nothing.
    pub told: Boxed<ToldBatch>,
}

impl<'p> Item for Carried<'p> {
    ghost is_sent = { IsCarried };

    ghost is_last = { is_last_carried };
}

impl<'p> LaneItem for Carried<'p> {
    type Key = LaneKey<'p>;

    ghost is_item = { λ key k x. IsCarried (key_of key.epoch) key.stage k x };

    ghost is_ending = { λ key x. is_last_carried (key_of key.epoch) x };
}

impl<'p> RingItem for Carried<'p> {
    type Key = LaneKey<'p>;

    ghost is_put = { λ key t x. IsCarried (key_of key.epoch) (key.stage - 1) t x };

    ghost is_given = { λ key t x. IsCarried (key_of key.epoch) key.stage t x };

    ghost is_ending = { λ key x. is_last_carried (key_of key.epoch) x };
}
