//! Memories, and the numbers of words of stages.
ghost use Rattle.std.specs.Prelude.{◌≡◌, pos, slice_set, get_or, replicate, length, IfOk, OnErr, OnOk};
ghost use Rattle.dp_tree.specs.Step.{stored};
ghost use Rattle.dp_semantics.specs.CauseWalk.{view_of, count_of};
ghost use Rattle.dp_view.specs.Memories as definition;
ghost use Rattle.dp_view.specs.Viewed.{effect_of};

use dp_base::{NoMemory, Row};
use dp_meaning::Effect;
use dp_tree::VarInfo;
use std::alloc::Global;

/// The number in a cell, and 0 where there is none.
#[inline(always)]
pub(crate) fn value_at(cells: &[i64], cell: usize) -> i64
    ensures { result ≡ get_or cells.now cell (pos 0) }
{
    match cells.get(cell) {
        Some(value) => *value,
        None => 0,
    }
}

/// Puts a number into a cell, if there is one.
#[inline(always)]
#[tactic(auto, using(dp_room::proofs::ListLemmas::stores))]
pub(crate) fn put(cells: &mut Row<i64>, cell: usize, value: i64)
    ensures { cells.new ≡ slice_set cells.old cell value }
{
    if cell < cells.len() {
        cells.set(cell, value);
    }
}

/// What the effect stores is stored.
#[inline(always)]
pub(crate) fn make(cells: &mut Row<i64>, effect: Effect)
    ensures { cells.new ≡ stored (effect_of effect) cells.old }
{
    match effect {
        Effect::Stored { cell, value } => put(cells, cell, value),
        Effect::Printed(_) | Effect::Decided(_) | Effect::Tried(_) => {}
    }
}

/// These cells read 0 afterwards.
pub(crate) fn clear(cells: &[usize], memory: &mut Row<i64>)
    ensures { memory.new ≡ definition.cleared_cells cells.now memory.old }
{
    for cell in cells {
        put(memory, *cell, 0);
    }
}

/// These cells read as in the other memory afterwards.
fn copy(from: &[i64], cells: &[usize], to: &mut Row<i64>)
    ensures { to.new ≡ definition.copied from.now cells.now to.old }
{
    for cell in cells {
        put(to, *cell, value_at(from, *cell));
    }
}

/// Cells of two lists read as in the other memory afterwards.
pub(crate) fn refresh(from: &[i64], locals: &[usize], others: &[usize], to: &mut Row<i64>)
    ensures { to.new ≡ definition.refreshed from.now locals.now others.now to.old }
{
    copy(from, locals, to);
    copy(from, others, to);
}

/// The cells of the region's body locals.
pub(crate) fn local_cells(
    alloc: Global,
    region: u32,
    vars: &[VarInfo],
) -> Result<Row<usize>, NoMemory>
    ensures { IfOk result (λ cells. cells ≡ definition.local_numbers region vars.now) }
{
    let mut cells = Row::new(alloc);
    for info in vars {
        if info.scope.is_local_of(region) {
            cells.push(info.first.0 as usize)?;
        }
    }
    Ok(cells)
}

/// So many copies of a memory.
pub(crate) fn copies(alloc: Global, cells: &[i64], count: usize) -> Result<Row<Row<i64>>, NoMemory>
    ensures { IfOk result (λ all. all ≡ replicate count cells.now) }
{
    let mut all = Row::with_capacity(alloc, count)?;
    let mut made = 0;
    while made < count {
        all.push(Row::from_slice(alloc, cells)?)?;
        made += 1;
    }
    Ok(all)
}

/// The memory of a stage; stages count from 1.
pub(crate) fn view(views: &[Row<i64>], stage: u32) -> &[i64]
    ensures { result.now ≡ view_of views.now stage }
{
    if stage == 0 {
        return &[];
    }
    match views.get(stage as usize - 1) {
        Some(view) => view.as_slice(),
        None => &[],
    }
}

/// The number of words of a stage.
pub(crate) fn count(counts: &[u64], stage: u32) -> u64
    ensures { result ≡ count_of counts.now stage }
{
    if stage == 0 {
        return 0;
    }
    match counts.get(stage as usize - 1) {
        Some(count) => *count,
        None => 0,
    }
}

/// A stage has so many words more. More of them than have numbers are a want of memory.
pub(crate) fn add(counts: &mut Row<u64>, stage: u32, more: u64) -> Result<(), NoMemory>
    ensures more { OnOk result (counts.new ≡ definition.count_more stage more counts.old) }
    ensures err { OnErr result (counts.new ≡ counts.old) }
{
    if stage == 0 {
        return Ok(());
    }
    let place = stage as usize - 1;
    if place < counts.len() {
        let sum = more
            .checked_add(count(counts.as_slice(), stage))
            .ok_or(NoMemory)?;
        counts.set(place, sum);
    }
    Ok(())
}

/// No stage has a word yet.
pub(crate) fn reset(counts: &mut Row<u64>)
    ensures { counts.new ≡ replicate (length counts.old) 0 }
{
    counts.as_mut_slice().fill(0);
}
