//! What fails of an event: its loads, what is assumed of it, or the number of its stage's words.
ghost use Rattle.std.specs.Prelude.{◌≡◌, map, IfOk};
ghost use Rattle.std.specs.Option.{option_map, option_or};
ghost use Rattle.std.specs.List.{list_all};
ghost use Rattle.dp_tree.specs.Event as event;
ghost use Rattle.dp_semantics.specs.CauseWalk.{load_cause_in};
ghost use Rattle.dp_semantics.specs.Clean as clean;
ghost use Rattle.dp_semantics.specs.LoadedCells.{load_from};
ghost use Rattle.dp_semantics.specs.Reported.{reported};
ghost use Rattle.dp_view.specs.Viewed as definition;
ghost use Rattle.dp_view.specs.Viewed.{effect_of};

use crate::memories::value_at;
use dp_base::{Cause, CellId, NoMemory, SiteId};
use dp_meaning::Effect;
use dp_plan::Plan;
use dp_tree::{Assume, Program};

/// The first of the cells that reads otherwise than in the source's memory.
pub(crate) fn loads_cause(
    view: &[i64],
    source: &[i64],
    site: SiteId,
    cells: &[usize],
) -> Result<Option<Cause>, NoMemory>
    ensures { IfOk result (λ found. found ≡ option_map reported (load_cause_in view.now site.0 (map (load_from source.now) cells.now))) }
{
    for cell in cells {
        let seen = value_at(view, *cell);
        let value = value_at(source, *cell);
        if seen != value {
            return cause_at(site, *cell, seen, value);
        }
    }
    Ok(None)
}

/// The load of a cell. One that has no number of 32 bits is a want of memory.
fn cause_at(site: SiteId, cell: usize, seen: i64, source: i64) -> Result<Option<Cause>, NoMemory>
    ensures { IfOk result (λ found. found ≡ definition.told_load site cell seen source) }
{
    match u32::try_from(cell) {
        Ok(number) => Ok(Some(Cause::Load {
            site,
            cell: CellId(number),
            seen,
            source,
        })),
        Err(_) => Err(NoMemory),
    }
}

/// The condition went so.
#[tactic(auto, unfolding(dp_base::specs::Arithmetic::is_zero))]
fn went(taken: bool, value: i64) -> bool
    ensures { result ≡ clean.went taken (event.Decided value) }
{
    if value == 0 { !taken } else { taken }
}

/// The outcome at the site is as the assumption says, if it is about that site.
fn goes_as(site: SiteId, value: i64, assumed: &Assume) -> bool
    ensures { result ≡ clean.goes_as site.0 (event.Decided value) assumed.now }
{
    assumed.site.0 != site.0 || went(assumed.taken, value)
}

/// The outcome at the site is as each assumption of the plan says.
fn goes_as_assumed(plan: &Plan, site: SiteId, value: i64) -> bool
    ensures { result ≡ list_all (clean.goes_as site.0 (event.Decided value)) plan.now.assume }
{
    for assumed in plan.assume.as_slice() {
        if !goes_as(site, value, assumed) {
            return false;
        }
    }
    true
}

/// An early exit isn't taken, or stands in the first stage.
#[tactic(auto, unfolding(dp_base::specs::Arithmetic::is_zero))]
fn stays_late(program: &Program, plan: &Plan, site: SiteId, value: i64) -> bool
    ensures { result ≡ clean.stays_late program.now plan.now site.0 (event.Tried value) }
{
    value == 0 || plan.stage(program, site) <= 1
}

/// What the site did is as the plan assumes.
pub(crate) fn as_assumed(program: &Program, plan: &Plan, site: SiteId, effect: Effect) -> bool
    ensures { result ≡ clean.as_assumed program.now plan.now site.0 (effect_of effect) }
{
    match effect {
        Effect::Stored { .. } => true,
        Effect::Printed(_) => true,
        Effect::Decided(value) => goes_as_assumed(plan, site, value),
        Effect::Tried(value) => stays_late(program, plan, site, value),
    }
}

/// The stage has more words than the plan has room for.
pub(crate) fn too_many(made: u64, room: u32, stage: u32, site: SiteId) -> Option<Cause>
    ensures { result ≡ option_map reported (definition.many_words made room stage site.0) }
{
    if made <= u64::from(room) {
        None
    } else {
        Some(Cause::Words { stage, site })
    }
}

/// The first cause, or else the second.
pub(crate) fn first_of(first: Option<Cause>, second: Option<Cause>) -> Option<Cause>
    ensures { result ≡ option_or first second }
{
    match first {
        Some(cause) => Some(cause),
        None => second,
    }
}
