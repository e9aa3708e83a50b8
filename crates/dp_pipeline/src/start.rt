//! Where the iterations of an epoch start.
ghost use Rattle.std.specs.Prelude.{◌≡◌, ◌<◌, ◌≤◌, ◌-◌, ◌+◌, ◌^◌, ◌⊎◌, ℕ, None, IfOk, OnErr};

use crate::carried::Carried;
use crate::growing::next_size;
use crate::spare::Spare;
use crate::supply::Supply;
use dp_relay::IdleWhy;
use std::sync::Wait;

/// Gives batches of an epoch's iterations, of which nothing is told, up to the iteration with the fuel's number.
#[derive(Drop)]
pub struct Start<'p> {
    pub(crate) first: u64,
    pub(crate) next: u64,
    pub(crate) fuel: u64,
    /// How many iterations go together at most.
    pub(crate) cap: u64,
    /// How many batches were given.
    pub(crate) taken: u64,
    pub(crate) refused: u64,
    pub(crate) supply: Supply<'p>,
    ghost counted: { (first + taken ≤ next) × (fuel < 2 ^ 64 - 1) },
}

impl<'p> Start<'p> {
    ghost use Rattle.dp_lean_machine.specs.declared.batch.BatchStatus.TheVariants as state;
    ghost use Rattle.dp_relay.specs.UnitsKey.{UnitsKey};
    ghost use Rattle.dp_pipeline.specs.Carried.{IsCarried};
    ghost use Rattle.dp_relay.specs.Facts.{Takes};
    ghost use Rattle.dp_pipeline.specs.Standing.{Starts, source_facts};
    ghost use Rattle.dp_pipeline.specs.declared.source.Source.TheVariants as source;

    /// The start of an epoch with this iteration.
    pub(crate) fn new(first: u64, fuel: u64, cap: u64, supply: Supply<'p>) -> Start<'p>
        requires { fuel < 2 ^ 64 - 1 }
        ensures first { (result.first ≡ first) × (result.next ≡ first) }
        ensures rest { (result.fuel ≡ fuel) × (result.cap ≡ cap) }
        ensures begun { (result.supply ≡ supply.entry) × (result.refused ≡ 0) × (result.taken ≡ 0) }
    {
        Start {
            first,
            next: first,
            fuel,
            cap,
            taken: 0,
            refused: 0,
            supply,
        }
    }

    /// The batch of the next iterations. None comes above the fuel's number, and behind one that says that memory is wanting.
    pub(crate) fn take<R: Wait>(&mut self, rt: &R) -> Result<Carried<'p>, IdleWhy>
        ensures took { IfOk result (λ item. (key : UnitsKey) (s n : ℕ) → Starts self.old key s n → IsCarried key s n item × Starts self.new key s (n + 1)) }
        ensures idle { OnErr result ((key : UnitsKey) (s n : ℕ) → Starts self.old key s n → Starts self.new key s n) }
        ensures none { OnErr result ((self.old.fuel < self.old.next) ⊎ (self.old.supply.last ≡ None)) }
        ensures kept { OnErr result (self.new.supply.last ≡ self.old.supply.last) }
        ensures spent { IfOk result (λ item. (item.batch.status ≡ state.NoMemory) ⊎ (self.new.supply.last ≡ self.old.supply.last)) }
        ensures taking { Takes result (source_facts (source.Start self.old)) (source_facts (source.Start self.new)) }
    {
        if self.next > self.fuel {
            self.refused = self.refused.saturating_add(1);
            return Err(IdleWhy::Empty);
        }
        let size = next_size(self.first, self.next, self.fuel, self.cap);
        match self.supply.batch(rt, self.next, size) {
            Some(Spare { batch, told }) => {
                self.next += size;
                self.taken += 1;
                Ok(Carried { batch, told })
            }
            None => {
                self.refused = self.refused.saturating_add(1);
                Err(IdleWhy::Empty)
            }
        }
    }
}
