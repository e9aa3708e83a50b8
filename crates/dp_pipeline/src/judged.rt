//! Verdicts on their way to the commit unit.
ghost use Rattle.dp_pipeline.specs.Carried.{IsJudged, is_last_judged};
ghost use Rattle.dp_pipeline.specs.Keys.{key_of};

use crate::keys::LaneKey;
use dp_base::Boxed;
use dp_judge::ToldBatch;
use dp_lane::LaneItem;
use dp_lean_machine::LeanBatch;
use dp_relay::Item;

/// The verdicts on a batch, up to the first behind which the epoch doesn't go on.
#[derive(Drop)]
pub struct Judged<'p> {
    pub told: Boxed<ToldBatch>,
    /// What was judged. The thread that takes the verdicts sends it back, since the judge has more to do.
    pub batch: Boxed<LeanBatch<'p>>,
}

impl<'p> Item for Judged<'p> {
    ghost is_sent = { λ key s k x. IsJudged key k x };

    ghost is_last = { is_last_judged };
}

impl<'p> LaneItem for Judged<'p> {
    type Key = LaneKey<'p>;

    ghost is_item = { λ key k x. IsJudged (key_of key.epoch) k x };

    ghost is_ending = { λ key x. is_last_judged (key_of key.epoch) x };
}
