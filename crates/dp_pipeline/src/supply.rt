//! Batches for the iterations of an epoch.
ghost use Rattle.std.specs.Prelude.{◌≡◌, ◌⊎◌, None, IfOk, IfSome, IfNone};
ghost use Rattle.dp_relay.specs.UnitsKey.{UnitsKey};
ghost use Rattle.dp_lane.specs.Ends.{refused_once};
ghost use Rattle.dp_lean_machine.specs.declared.batch.BatchStatus.TheVariants as state;
ghost use Rattle.dp_pipeline.specs.steps.Supplying.{IsSupplied, Supplies};

use crate::spare::Spare;
use dp_base::NoMemory;
use dp_lane::TakeEnd;
use dp_lean_region::Line;
use std::alloc::Global;
use std::sync::Wait;

/// Gives batches of which nothing is told: those that were judged once more, and else new ones.
#[derive(Drop)]
pub struct Supply<'p> {
    alloc: Global,
    pub(crate) line: Line<'p>,
    /// Where batches come back that were judged.
    pub(crate) spares: TakeEnd<Spare<'p>>,
    /// The one that says that there is no memory for another.
    pub(crate) last: Option<Spare<'p>>,
}

impl<'p> Supply<'p> {
    pub(crate) fn new(
        alloc: Global,
        line: Line<'p>,
        spares: TakeEnd<Spare<'p>>,
    ) -> Result<Supply<'p>, NoMemory>
        ensures line { IfOk result (λ supply. supply.line ≡ line.entry) }
        ensures spares { IfOk result (λ supply. supply.spares ≡ spares.entry) }
        ensures last { IfOk result (λ supply. IfSome supply.last (λ spare. spare.batch.line ≡ line.entry)) }
    {
        let last = Spare::new(alloc, line, 0, 0)?;
        Ok(Supply {
            alloc,
            line,
            spares,
            last: Some(last),
        })
    }

    /// The batch of so many iterations from this one on. One for which memory is wanting says so, and none come behind that.
    pub(crate) fn batch<R: Wait>(&mut self, rt: &R, first: u64, size: u64) -> Option<Spare<'p>>
        ensures fresh { IfSome result (λ spare. IsSupplied self.old first size spare.batch) }
        ensures stays { (key : UnitsKey) → Supplies self.old key → Supplies self.new key }
        ensures none { IfNone result (self.old.last ≡ None) }
        ensures kept { IfNone result (self.new.last ≡ self.old.last) }
        ensures spent { IfSome result (λ spare. (spare.batch.status ≡ state.NoMemory) ⊎ (self.new.last ≡ self.old.last)) }
        ensures no_spare { (self.new.last ≡ self.old.last) ⊎ (self.new.spares ≡ refused_once self.old.spares) }
    {
        match self.spares.take(rt) {
            Some(spare) => {
                let mut spare = spare;
                spare.batch.get_mut().renew(first, size as usize);
                Some(spare)
            }
            None => self.made(first, size),
        }
    }

    /// A new batch.
    fn made(&mut self, first: u64, size: u64) -> Option<Spare<'p>>
        ensures fresh { IfSome result (λ spare. IsSupplied self.old first size spare.batch) }
        ensures stays { (key : UnitsKey) → Supplies self.old key → Supplies self.new key }
        ensures none { IfNone result (self.old.last ≡ None) }
        ensures kept { IfNone result (self.new.last ≡ self.old.last) }
        ensures spares { self.new.spares ≡ self.old.spares }
        ensures spent { IfSome result (λ spare. (spare.batch.status ≡ state.NoMemory) ⊎ (self.new.last ≡ self.old.last)) }
    {
        match Spare::new(self.alloc, self.line, first, size as usize) {
            Ok(spare) => Some(spare),
            Err(NoMemory) => self.wanting(first, size),
        }
    }

    /// The batch that says that memory is wanting.
    fn wanting(&mut self, first: u64, size: u64) -> Option<Spare<'p>>
        ensures fresh { IfSome result (λ spare. IsSupplied self.old first size spare.batch) }
        ensures stays { (key : UnitsKey) → Supplies self.old key → Supplies self.new key }
        ensures none { IfNone result (self.old.last ≡ None) }
        ensures kept { IfNone result (self.new.last ≡ self.old.last) }
        ensures spares { self.new.spares ≡ self.old.spares }
        ensures wanting { IfSome result (λ spare. spare.batch.status ≡ state.NoMemory) }
    {
        match self.last.take() {
            Some(last) => {
                let mut last = last;
                let batch = last.batch.get_mut();
                batch.renew(first, size as usize);
                batch.wanting();
                Some(last)
            }
            None => None,
        }
    }
}
