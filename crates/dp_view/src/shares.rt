//! The memories that all stages see, changed together.
ghost use Rattle.std.specs.Prelude.{◌≡◌, ◌<◌, ◌≤◌, ◌-◌, map, length, slice_set, get_or, []};
ghost use Rattle.dp_semantics.specs.EpochCauses.{views_from};
ghost use Rattle.dp_view.specs.Memories as definition;
ghost use Rattle.dp_view.specs.Viewed.{effect_of};

use crate::memories::{clear, make, put, refresh, value_at};
use dp_base::Row;
use dp_meaning::Effect;
use dp_plan::{Plan, StageKind};

/// An effect at a site of a stage is seen by it and the later ones.
pub(crate) fn show(views: &mut [Row<i64>], stage: u32, effect: Effect)
    ensures { views.new ≡ definition.shown_to_stages stage (effect_of effect) 1 views.old }
{
    let mut place = 0;
    while place < views.len() {
        if stage as usize <= place + 1 {
            make(&mut views[place], effect);
        }
        place += 1;
    }
}

/// These cells read 0 in each memory.
fn clear_all(views: &mut [Row<i64>], cells: &[usize])
    ensures { views.new ≡ map (definition.cleared_cells cells.now) views.old }
{
    let mut place = 0;
    while place < views.len() {
        clear(cells, &mut views[place]);
        place += 1;
    }
}

/// Cells of two lists read in each memory as in the given one.
pub(crate) fn refresh_all(views: &mut [Row<i64>], locals: &[usize], since: &[usize], from: &[i64])
    ensures { views.new ≡ map (definition.refreshed from.now locals.now since.now) views.old }
{
    let mut place = 0;
    while place < views.len() {
        refresh(from, locals, since, &mut views[place]);
        place += 1;
    }
}

/// These cells read in the memory at a place as in the one before it.
fn share(views: &mut [Row<i64>], place: usize, cells: &[usize])
    requires first { 0 < place }
    requires within { place < length views.old }
    ensures { views.new ≡ slice_set views.old place (definition.copied (get_or views.old (place - 1) []) cells.now (get_or views.old place [])) }
{
    for cell in cells {
        let value = value_at(views[place - 1].as_slice(), *cell);
        put(&mut views[place], *cell, value);
    }
}

/// Whether the stage at this place, from 0, is replicated.
fn is_replicated(plan: &Plan, place: usize) -> bool
    ensures { result ≡ definition.is_replicated_at plan.now place }
{
    match plan.stages.get(place) {
        Some(StageKind::Par) => true,
        Some(StageKind::Seq) | None => false,
    }
}

/// A replicated stage sees what the stage before it does, where these cells are all in which their memories differ.
fn share_all(views: &mut [Row<i64>], plan: &Plan, cells: &[usize])
    ensures { definition.Neighbours plan.now cells.now views.old → views.new ≡ views_from plan.now 1 [] views.old }
{
    let mut place = 1;
    while place < views.len() {
        if is_replicated(plan, place) {
            share(views, place, cells);
        }
        place += 1;
    }
}

/// The body locals read 0 in each memory, and a replicated stage sees what the stage before it does, where these cells are all in
/// which their memories differ then.
pub(crate) fn next_all(views: &mut [Row<i64>], plan: &Plan, locals: &[usize], cells: &[usize])
    ensures { definition.Neighbours plan.now cells.now (map (definition.cleared_cells locals.now) views.old) →
        views.new ≡ views_from plan.now 1 [] (map (definition.cleared_cells locals.now) views.old) }
{
    clear_all(views, locals);
    share_all(views, plan, cells);
}
