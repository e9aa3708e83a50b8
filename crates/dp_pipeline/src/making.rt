//! How the units of an epoch are made.
ghost use Rattle.std.specs.Prelude.{◌≡◌, ◌<◌, ◌≤◌, ◌+◌, ◌-◌, ◌^◌, suc, true, length, IfOk, OnOk};
ghost use Rattle.dp_plan.specs.Access.{is_replicated};
ghost use Rattle.dp_pipeline.specs.Coming.{coming_of};
ghost use Rattle.dp_pipeline.specs.Keys.{key_of};
ghost use Rattle.dp_pipeline.specs.Lanes.{GoesBack};
ghost use Rattle.dp_pipeline.specs.steps.Setting.{IsSetting};
ghost use Rattle.dp_pipeline.specs.Standing.{GivesBatches, source_facts};
ghost use Rattle.dp_pipeline.specs.UnitCount.{unit_count};

use crate::carried::Carried;
use crate::pipeline::Pipeline;
use crate::setting::Setting;
use crate::source::Source;
use crate::spare::{Back, way_back};
use crate::staffing::{add_unit, add_workers, next_is_replicated};
use crate::start::Start;
use crate::target::Target;
use crate::trying::add_judging;
use crate::unit::Unit;
use dp_base::{NoMemory, Row};
use dp_lane::lane;
use dp_ring::Ring;
use dp_stop::StopSetter;
use std::alloc::Global;

/// Adds the unit of the setting's stage, with a lane behind it, and answers what comes out of the lane.
fn add_stage<'u>(
    alloc: Global,
    setting: &Setting<'u>,
    source: Source<'u>,
    units: &mut Row<Unit<'u>>,
    setter: &mut StopSetter,
) -> Result<Source<'u>, NoMemory>
    requires setting { IsSetting setting.now }
    requires within { setting.now.key.stage ≤ length setting.now.key.epoch.plan.now.stages }
    requires source { GivesBatches source (key_of setting.now.key.epoch) (setting.now.key.stage - 1) 0 × ((source_facts source).count ≡ 0) }
    ensures next { IfOk result (λ next. GivesBatches next (key_of setting.now.key.epoch) setting.now.key.stage 0 × ((source_facts next).count ≡ 0)) }
    ensures count { OnOk result (length units.new ≡ length units.old + 1) }
    ensures setter { setter.new ≡ setter.old }
{
    let key = &setting.key;
    let (target, next) = lane::<Carried>(alloc, key, setting.size.lane)?;
    add_unit(
        alloc,
        setting,
        key.stage,
        source,
        Target::Lane(target),
        units,
        setter,
    )?;
    Ok(Source::Lane(next))
}

/// Adds the unit of the setting's stage and the workers of the replicated stage behind it, to which the setting goes on, with
/// a ring around them, and answers what comes out of the ring.
fn add_replicated<'u>(
    alloc: Global,
    setting: &mut Setting<'u>,
    source: Source<'u>,
    units: &mut Row<Unit<'u>>,
    setter: &mut StopSetter,
) -> Result<Source<'u>, NoMemory>
    requires setting { IsSetting setting.old }
    requires stage { setting.old.key.stage < 2 ^ 32 - 1 }
    requires within { setting.old.key.stage < length setting.old.key.epoch.plan.now.stages }
    requires replicated { is_replicated setting.old.key.epoch.plan.now (suc setting.old.key.stage) ≡ true }
    requires source { GivesBatches source (key_of setting.old.key.epoch) (setting.old.key.stage - 1) 0 × ((source_facts source).count ≡ 0) }
    ensures next { IfOk result (λ next. GivesBatches next (key_of setting.old.key.epoch) (setting.old.key.stage + 1) 0 × ((source_facts next).count ≡ 0)) }
    ensures count { OnOk result (length units.new ≡ length units.old + (setting.old.size.workers + 1)) }
    ensures key { OnOk result (setting.new.key ≡ record { epoch = setting.old.key.epoch; stage = setting.old.key.stage + 1 }) }
    ensures rest { (setting.new.line ≡ setting.old.line) × (setting.new.size ≡ setting.old.size) }
    ensures setter { setter.new ≡ setter.old }
{
    let (stage, size) = (setting.key.stage, setting.size);
    setting.key.stage += 1;
    let (input, seats, output) = Ring::new::<Carried>(
        alloc,
        &setting.key,
        size.lane,
        size.workers,
    )?;
    add_unit(
        alloc,
        setting,
        stage,
        source,
        Target::Ring(input),
        units,
        setter,
    )?;
    add_workers(alloc, setting, seats, units, setter)?;
    Ok(Source::Ring(output))
}

/// Where the epoch's batches start, and where those that were judged go back.
fn started<'u>(alloc: Global, setting: &Setting<'u>) -> Result<(Back<'u>, Source<'u>), NoMemory>
    requires setting { IsSetting setting.now }
    ensures back { IfOk result (λ made. GoesBack made.0.end.view (key_of setting.now.key.epoch)) }
    ensures source { IfOk result (λ made. GivesBatches made.1 (key_of setting.now.key.epoch) 0 0 × ((source_facts made.1).count ≡ 0)) }
{
    let epoch = &setting.key.epoch;
    let (back, supply) = way_back(alloc, &setting.key, setting.line, setting.size.lane)?;
    let start = Start::new(epoch.first, epoch.fuel, epoch.cap, supply);
    Ok((back, Source::Start(start)))
}

/// The pipeline of the setting's epoch. Its units stand in the order of the stages with the try-commit unit last; a replicated
/// stage stands as its workers.
pub(crate) fn pipeline_of<'u>(
    alloc: Global,
    mut setting: Setting<'u>,
    setter: &mut StopSetter,
) -> Result<Pipeline<'u>, NoMemory>
    requires setting { IsSetting setting }
    requires stage { setting.key.stage ≡ 1 }
    ensures units { IfOk result (λ made. length made.units ≡ unit_count setting.entry.size.workers setting.entry.key.epoch.plan.now) }
    ensures verdicts { IfOk result (λ made. made.verdicts ≡ coming_of setting.entry.key.epoch) }
    ensures setter { setter.new ≡ setter.old }
{
    let plan = setting.key.epoch.plan;
    let stages = plan.stages.len() as u32;
    let mut units = Row::new(alloc);
    let (back, mut source) = started(alloc, &setting)?;
    while setting.key.stage <= stages {
        source = if next_is_replicated(plan, setting.key.stage) {
            add_replicated(alloc, &mut setting, source, &mut units, setter)?
        } else {
            add_stage(alloc, &setting, source, &mut units, setter)?
        };
        setting.key.stage += 1;
    }
    let verdicts = add_judging(alloc, setting, source, back, &mut units, setter)?;
    Ok(Pipeline { units, verdicts })
}
