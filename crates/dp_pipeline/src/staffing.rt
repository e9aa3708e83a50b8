//! How the units that run one stage are made.
ghost use Rattle.std.specs.Prelude.{◌≡◌, ◌<◌, ◌≤◌, ◌-◌, suc, true, false, Some, length, IfOk, OnOk, ◌+◌};
ghost use Rattle.dp_plan.specs.Access.{is_replicated};
ghost use Rattle.dp_plan.specs.Each.{Each};
ghost use Rattle.dp_pipeline.specs.Keys.{key_of};
ghost use Rattle.dp_pipeline.specs.Seats.{IsUnused};
ghost use Rattle.dp_pipeline.specs.steps.Setting.{IsSetting};
ghost use Rattle.dp_pipeline.specs.Staging.{RunsAt};
ghost use Rattle.dp_pipeline.specs.Standing.{GivesBatches, Gets, source_facts, target_facts, target_ended};

use crate::carried::Carried;
use crate::passage::Passage;
use crate::setting::Setting;
use crate::source::Source;
use crate::staged::Staged;
use crate::target::Target;
use crate::tickets::Tickets;
use crate::unit::{Kind, Unit};
use dp_base::{Boxed, NoMemory, Row};
use dp_lean_machine::LeanMachine;
use dp_plan::{Plan, StageKind};
use dp_relay::Relay;
use dp_ring::WorkerSeat;
use dp_stop::{StopSeat, StopSetter};
use std::alloc::Global;

/// Whether the stage behind the one of this number is replicated.
pub(crate) fn next_is_replicated(plan: &Plan, stage: u32) -> bool
    ensures kind { result ≡ is_replicated plan.now (suc stage) }
    ensures within { result ≡ true → stage < length plan.now.stages }
{
    match plan.stages.get(stage as usize) {
        Some(StageKind::Par) => true,
        Some(StageKind::Seq) | None => false,
    }
}

/// What runs the stage with this number, from the epoch's beginning on.
fn staged(alloc: Global, setting: &Setting<'_>, stage: u32) -> Result<Staged, NoMemory>
    requires setting { IsSetting setting.now }
    requires stage { (0 < stage) × (stage ≤ length setting.now.key.epoch.plan.now.stages) }
    ensures { IfOk result (λ made. RunsAt made (key_of setting.now.key.epoch) stage (Some 0)) }
{
    let epoch = &setting.key.epoch;
    let machine = LeanMachine::new(alloc, epoch.plan, stage as usize, &epoch.base)?;
    Ok(Staged {
        machine,
        stage,
        fuel: epoch.fuel,
    })
}

/// Adds the one unit of the stage with this number, which takes its batches in order.
pub(crate) fn add_unit<'u>(
    alloc: Global,
    setting: &Setting<'u>,
    stage: u32,
    source: Source<'u>,
    target: Target<'u>,
    units: &mut Row<Unit<'u>>,
    setter: &mut StopSetter,
) -> Result<(), NoMemory>
    requires setting { IsSetting setting.now }
    requires stage { (0 < stage) × (stage ≤ length setting.now.key.epoch.plan.now.stages) }
    requires start { GivesBatches source (key_of setting.now.key.epoch) (stage - 1) 0 × Gets target (key_of setting.now.key.epoch) stage 0 }
    requires counts { ((source_facts source).count ≡ 0) × ((target_facts target).count ≡ 0) × (target_ended target ≡ false) }
    ensures count { OnOk result (length units.new ≡ length units.old + 1) }
    ensures setter { setter.new ≡ setter.old }
{
    let stage = staged(alloc, setting, stage)?;
    let unit = Relay::new(stage, Passage { source, target }, setter.seat()?);
    let kind = Boxed::new(alloc, Kind::Stage(unit))?;
    units.push(Unit { kind })
}

/// A worker of the setting's stage, at a seat of its ring.
fn worker<'u>(
    alloc: Global,
    setting: &Setting<'u>,
    at: WorkerSeat<Carried<'u>>,
    seat: StopSeat,
) -> Result<Unit<'u>, NoMemory>
    requires setting { IsSetting setting.now }
    requires within { setting.now.key.stage ≤ length setting.now.key.epoch.plan.now.stages }
    requires replicated { is_replicated setting.now.key.epoch.plan.now setting.now.key.stage ≡ true }
    requires at { IsUnused setting.now.key at }
    requires seat { seat.seen ≡ false }
{
    let stage = staged(alloc, setting, setting.key.stage)?;
    let ends = Tickets {
        seat: at,
        has_ticket: false,
    };
    let unit = Relay::new(stage, ends, seat);
    let kind = Boxed::new(alloc, Kind::Worker(unit))?;
    Ok(Unit { kind })
}

/// Adds a worker for each of these seats at the ring of the setting's stage.
pub(crate) fn add_workers<'u>(
    alloc: Global,
    setting: &Setting<'u>,
    mut seats: Row<WorkerSeat<Carried<'u>>>,
    units: &mut Row<Unit<'u>>,
    setter: &mut StopSetter,
) -> Result<(), NoMemory>
    requires setting { IsSetting setting.now }
    requires within { setting.now.key.stage ≤ length setting.now.key.epoch.plan.now.stages }
    requires replicated { is_replicated setting.now.key.epoch.plan.now setting.now.key.stage ≡ true }
    requires seats { Each (IsUnused setting.now.key) seats }
    ensures count { OnOk result (length units.new ≡ length units.old + length seats.entry) }
    ensures setter { setter.new ≡ setter.old }
{
    while let Some(at) = seats.pop() {
        let unit = worker(alloc, setting, at, setter.seat()?)?;
        units.push(unit)?;
    }
    Ok(())
}
