//! Batches on their way back to the first stage.
ghost use Rattle.std.specs.Prelude.{◌≡◌, false, IfOk};
ghost use Rattle.dp_lean_region.specs.LeanEpoch.{IsLeanEpoch};
ghost use Rattle.dp_lean_region.specs.Line.{IsLineOf};
ghost use Rattle.dp_pipeline.specs.Carried.{lean_of};
ghost use Rattle.dp_pipeline.specs.Keys.{key_of};
ghost use Rattle.dp_pipeline.specs.Lanes.{GoesBack};
ghost use Rattle.dp_pipeline.specs.steps.Supplying.{Supplies};

use crate::keys::LaneKey;
use crate::supply::Supply;
use dp_base::{Boxed, NoMemory};
use dp_judge::ToldBatch;
use dp_lane::{LaneItem, SendEnd, lane};
use dp_lean_machine::LeanBatch;
use dp_lean_region::Line;
use std::alloc::Global;
use std::sync::Wait;

/// A batch whose room is used again: it is one of its epoch's line, and what else it says means nothing.
#[derive(Drop)]
pub struct Spare<'p> {
    pub batch: Boxed<LeanBatch<'p>>,
    /// Room for verdicts.
    pub told: Boxed<ToldBatch>,
}

impl<'p> Spare<'p> {
    ghost use Rattle.dp_lean_machine.specs.Fresh.{IsFresh};

    /// A new one, which is the batch of so many iterations from this one on.
    pub(crate) fn new(
        alloc: Global,
        line: Line<'p>,
        first: u64,
        size: usize,
    ) -> Result<Spare<'p>, NoMemory>
        ensures fresh { IfOk result (λ spare. IsFresh line.entry first size spare.batch) }
        ensures line { IfOk result (λ spare. spare.batch.line ≡ line.entry) }
    {
        let batch = LeanBatch::new(alloc, line, first, size)?;
        Ok(Spare {
            batch: Boxed::new(alloc, batch)?,
            told: Boxed::new(alloc, ToldBatch::new(alloc))?,
        })
    }
}

impl<'p> LaneItem for Spare<'p> {
    type Key = LaneKey<'p>;

    ghost is_item = { λ key _ x. IsLineOf (lean_of (key_of key.epoch)) x.batch.line };

    ghost is_ending = { λ _ _. false };
}

/// Where judged batches are sent back.
#[derive(Drop)]
pub struct Back<'p> {
    pub(crate) end: SendEnd<Spare<'p>>,
}

impl<'p> Back<'p> {
    ghost use Rattle.dp_relay.specs.UnitsKey.{UnitsKey};

    /// Sends a batch back, or frees it.
    pub(crate) fn send<R: Wait>(&mut self, rt: &R, spare: Spare<'p>)
        requires { (key : UnitsKey) × GoesBack self.old.end.view key × IsLineOf (lean_of key) spare.batch.line }
        ensures { (key : UnitsKey) → GoesBack self.old.end.view key → GoesBack self.new.end.view key }
    {
        drop(self.end.send(rt, spare));
    }
}

/// The way back for batches of the key's epoch that were judged, and what gives them out again. It has as many places as a lane:
/// the first stage takes a batch back before it has another one made, and one for which there is no place is freed.
pub(crate) fn way_back<'p>(
    alloc: Global,
    key: &LaneKey<'p>,
    line: Line<'p>,
    places: u32,
) -> Result<(Back<'p>, Supply<'p>), NoMemory>
    requires lean { IsLeanEpoch (lean_of (key_of key.now.epoch)) }
    requires line { IsLineOf (lean_of (key_of key.now.epoch)) line }
    ensures back { IfOk result (λ made. GoesBack made.0.end.view (key_of key.now.epoch)) }
    ensures supply { IfOk result (λ made. Supplies made.1 (key_of key.now.epoch)) }
{
    let (end, spares) = lane::<Spare>(alloc, key, places.max(1))?;
    let supply = Supply::new(alloc, line, spares)?;
    Ok((Back { end }, supply))
}
