//! How the try-commit unit of an epoch is made.
ghost use Rattle.std.specs.Prelude.{◌≡◌, ◌+◌, ◌-◌, false, length, IfOk, OnOk};
ghost use Rattle.dp_lane.specs.declared.rule.View.TheVariants.{Sender};
ghost use Rattle.dp_lane.specs.Ends.{new_end};
ghost use Rattle.dp_judge.specs.Judging.{Judges};
ghost use Rattle.dp_pipeline.specs.Carried.{lean_of};
ghost use Rattle.dp_pipeline.specs.Coming.{coming_of};
ghost use Rattle.dp_pipeline.specs.Keys.{key_of};
ghost use Rattle.dp_pipeline.specs.Lanes.{GoesBack};
ghost use Rattle.dp_pipeline.specs.steps.Setting.{IsSetting};
ghost use Rattle.dp_pipeline.specs.Standing.{GivesBatches, source_facts};

use crate::judge::Judge;
use crate::judged::Judged;
use crate::judging::Judging;
use crate::setting::Setting;
use crate::source::Source;
use crate::spare::Back;
use crate::unit::{Kind, Unit};
use crate::verdicts::LaneVerdicts;
use dp_base::{Boxed, NoMemory, Row};
use dp_judge::LeanCourt;
use dp_lane::{SendEnd, lane};
use dp_relay::Relay;
use dp_stop::{StopSeat, StopSetter};
use std::alloc::Global;

/// The judging where the setting's epoch begins. It goes on with the memory of the setting.
fn judge_of(alloc: Global, setting: Setting<'_>) -> Judge
    requires setting { IsSetting setting }
    ensures { Judges result.court (lean_of (key_of setting.entry.key.epoch)) 0 }
{
    let left = setting.key.epoch.fuel - setting.key.epoch.steps;
    Judge {
        court: LeanCourt::new(alloc, setting.into_base(), left),
    }
}

/// The unit of the judging where the setting's epoch begins, between what gives it batches and where its verdicts go.
fn judging_unit<'u>(
    alloc: Global,
    setting: Setting<'u>,
    source: Source<'u>,
    verdicts: SendEnd<Judged<'u>>,
    seat: StopSeat,
) -> Result<Unit<'u>, NoMemory>
    requires setting { IsSetting setting }
    requires stage { setting.key.stage ≡ length setting.key.epoch.plan.now.stages + 1 }
    requires source { GivesBatches source (key_of setting.key.epoch) (setting.key.stage - 1) 0 }
    requires count { (source_facts source).count ≡ 0 }
    requires verdicts { verdicts ≡ new_end (Sender setting.key 0 false) setting.size.lane }
    requires seat { seat.seen ≡ false }
{
    let judge = judge_of(alloc, setting);
    let unit = Relay::new(judge, Judging { source, verdicts }, seat);
    let kind = Boxed::new(alloc, Kind::TryCommit(unit))?;
    Ok(Unit { kind })
}

/// Adds the try-commit unit, and answers its verdicts as they come. The batches that were judged go back this way.
pub(crate) fn add_judging<'u>(
    alloc: Global,
    setting: Setting<'u>,
    source: Source<'u>,
    back: Back<'u>,
    units: &mut Row<Unit<'u>>,
    setter: &mut StopSetter,
) -> Result<LaneVerdicts<'u>, NoMemory>
    requires setting { IsSetting setting }
    requires stage { setting.key.stage ≡ length setting.key.epoch.plan.now.stages + 1 }
    requires source { GivesBatches source (key_of setting.key.epoch) (setting.key.stage - 1) 0 }
    requires back { GoesBack back.end.view (key_of setting.key.epoch) }
    requires count { (source_facts source).count ≡ 0 }
    ensures verdicts { IfOk result (λ verdicts. verdicts ≡ coming_of setting.entry.key.epoch) }
    ensures count { OnOk result (length units.new ≡ length units.old + 1) }
    ensures setter { setter.new ≡ setter.old }
{
    let (verdicts, told) = lane::<Judged>(alloc, &setting.key, setting.size.lane)?;
    let unit = judging_unit(alloc, setting, source, verdicts, setter.seat()?)?;
    units.push(unit)?;
    Ok(LaneVerdicts::new(alloc, told, back))
}
