//! The pipeline of an epoch.
ghost use Rattle.std.specs.Prelude.{◌≡◌, ◌≤◌, length, IfOk};
ghost use Rattle.dp_judge.specs.declared.verdict.Verdict.TheVariants as verdict;
ghost use Rattle.dp_pipeline.specs.Begin.{key_at};
ghost use Rattle.dp_pipeline.specs.UnitCount.{unit_count};

use crate::keys::{Begin, EpochKey, LaneKey};
use crate::making::pipeline_of;
use crate::setting::Setting;
use crate::size::CrewSize;
use crate::unit::Unit;
use crate::verdicts::LaneVerdicts;
use dp_base::{NoMemory, Row};
use dp_prepared::PreparedRegion;
use dp_stop::StopSetter;
use std::alloc::Global;

/// The units of an epoch, none of which was polled, and the end on which their verdicts come.
#[derive(Drop)]
pub struct Pipeline<'u> {
    pub units: Row<Unit<'u>>,
    pub verdicts: LaneVerdicts<'u>,
}

impl<'u> Pipeline<'u> {
    /// Makes the pipeline of a region's epoch. Its units look at the flag of the setter.
    pub fn new<'p>(
        alloc: Global,
        region: &'u PreparedRegion<'p>,
        input: &'u [i64],
        begin: Begin<'_>,
        size: CrewSize,
        setter: &mut StopSetter,
    ) -> Result<Pipeline<'u>, NoMemory>
        requires steps { begin.steps ≤ begin.fuel }
        requires fuel { begin.fuel ≤ 1000000000 }
        ensures units { IfOk result (λ made. length made.units ≡ unit_count size.workers region.now.plan) }
        ensures setter { setter.new ≡ setter.old }
        ensures verdicts { IfOk result (λ made. made.verdicts ≡ record { key = key_at region.now input.now begin.entry; given = 0; last = verdict.NoMemory }) }
    {
        let line = region.line(input);
        line.epochs_are_lawful();
        let epoch = EpochKey::copied(line, begin)?;
        let key = LaneKey { epoch, stage: 1 };
        let setting = Setting { line, size, key };
        pipeline_of(alloc, setting, setter)
    }
}
