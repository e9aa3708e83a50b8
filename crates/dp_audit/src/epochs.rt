//! The epochs of a region, each polled on the calling thread.
ghost use Rattle.std.specs.Prelude.{◌≡◌, ◌≤◌, IfOk};
ghost use Rattle.dp_semantics.specs.EpochCauses.{IsSound};
ghost use Rattle.dp_epoch.specs.InEpoch.{key_here, none_given};

use dp_base::NoMemory;
use dp_epoch::{CrewSize, Ledger, pipeline_here};
use dp_pipeline::{LaneVerdicts, Pipeline};
use dp_prepared::PreparedRegion;
use dp_stop::StopSetter;
use std::alloc::Global;

/// What each epoch of a region is made of. The flag is that of all epochs, and is never set.
#[derive(Drop)]
pub(crate) struct Epochs<'s, 'q> {
    pub(crate) alloc: Global,
    pub(crate) region: &'s PreparedRegion<'q>,
    pub(crate) input: &'s [i64],
    pub(crate) size: CrewSize,
    pub(crate) setter: StopSetter,
}

impl<'s, 'q> Epochs<'s, 'q> {
    /// The verdicts of the epoch that begins behind what is committed. Its units are polled where one is awaited.
    pub(crate) fn begin(&mut self, ledger: &Ledger<'_, '_>) -> Result<LaneVerdicts<'s>, NoMemory>
        requires sound { IsSound (key_here self.old.region.now.program self.old.region.now.plan self.old.input.now ledger.now.committed) }
        requires fuel { ledger.now.committed.machine.fuel ≤ 1000000000 }
        ensures kept { self.new ≡ self.old }
        ensures verdicts { IfOk result
            (λ verdicts. verdicts ≡ none_given (key_here self.old.region.now.program self.old.region.now.plan self.old.input.now ledger.now.committed)) }
    {
        let Pipeline { units, verdicts } = pipeline_here(
            self.alloc,
            self.region,
            self.input,
            self.size,
            ledger,
            &mut self.setter,
        )?;
        Ok(verdicts.polling(units))
    }
}
