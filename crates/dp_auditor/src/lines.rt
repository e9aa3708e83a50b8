//! The lines of an iteration.
ghost use Rattle.std.specs.Prelude.{◌≡◌, ◌++◌, ◌∷◌, [], if◌then◌else◌, map, filter, length, get_or, pos, OnOk, IfOk};
ghost use Rattle.dp_tree.specs.Numbering.{numbers_from};
ghost use Rattle.dp_tree.specs.Step.{clear_locals};
ghost use Rattle.dp_log.specs.Changes.{set_from};
ghost use Rattle.dp_log.specs.LogText.{group_bytes};
ghost use Rattle.dp_view.specs.Changed.{Cleared};
ghost use Rattle.dp_view.specs.Changed as definition;
ghost use Rattle.dp_auditor.specs.Gathered.{cleared_one, sets_between};

use dp_base::{CellId, Cells, NoMemory, Row};
use dp_log::{SetOf, put_group};
use dp_tree::{Program, VarInfo};
use dp_view::Views;
use std::alloc::Global;

/// What an iteration's lines are made of. The room is used again for each iteration.
#[derive(Drop)]
pub(crate) struct Lines {
    changed: Row<usize>,
    sets: Row<SetOf>,
    text: Row<u8>,
}

/// The number in a cell, and 0 where there is none.
fn value_at(cells: &[i64], cell: usize) -> i64
    ensures { result ≡ get_or cells.now cell (pos 0) }
{
    match cells.get(cell) {
        Some(value) => *value,
        None => 0,
    }
}

/// A cell with its value. One that has no number of 32 bits is a want of memory.
fn set_of(cell: usize, source: &[i64]) -> Result<SetOf, NoMemory>
    ensures { IfOk result (λ set. set ≡ set_from source.now cell) }
{
    let value = value_at(source, cell);
    match u32::try_from(cell) {
        Ok(number) => Ok(SetOf {
            cell: CellId(number),
            value,
        }),
        Err(_) => Err(NoMemory),
    }
}

/// The cells with their values take the place of what `sets` has.
fn put_sets(cells: &[usize], source: &[i64], sets: &mut Row<SetOf>) -> Result<(), NoMemory>
    ensures { OnOk result (sets.new ≡ map (set_from source.now) cells.now) }
{
    sets.clear();
    for cell in cells {
        sets.push(set_of(*cell, source)?)?;
    }
    Ok(())
}

fn differs(before: &[i64], after: &[i64], cell: usize) -> bool
    ensures { result ≡ definition.differs before.now after.now cell }
{
    value_at(before, cell) != value_at(after, cell)
}

/// The cell comes behind the others, if it reads otherwise than before.
fn put_if_changed(
    before: &[i64],
    after: &[i64],
    cell: usize,
    out: &mut Row<usize>,
) -> Result<(), NoMemory>
    ensures { OnOk result (out.new ≡ out.old ++ (if definition.differs before.now after.now cell then cell ∷ [] else [])) }
{
    if differs(before, after, cell) {
        out.push(cell)?;
    }
    Ok(())
}

/// The cells that read otherwise than before take the place of what `out` has, in ascending order.
fn put_changed(before: &[i64], after: &[i64], out: &mut Row<usize>) -> Result<(), NoMemory>
    ensures { OnOk result (out.new ≡ filter (definition.differs before.now after.now) (numbers_from 0 (length after.now))) }
{
    out.clear();
    for cell in 0..after.len() {
        put_if_changed(before, after, cell, out)?;
    }
    Ok(())
}

/// A memory in which the region's body locals read 0.
pub(crate) fn without_locals(
    alloc: Global,
    program: &Program,
    region: u32,
    cells: &Cells,
) -> Result<Row<i64>, NoMemory>
    ensures { IfOk result (λ memory. memory ≡ clear_locals region program.now.vars cells.now) }
{
    let mut memory = Row::from_slice(alloc, cells.as_slice())?;
    for info in program.vars.as_slice() {
        clear_local(region, info, &mut memory);
    }
    Ok(memory)
}

#[tactic(auto, using(dp_room::proofs::ListLemmas::stores))]
fn clear_local(region: u32, info: &VarInfo, memory: &mut Row<i64>)
    ensures { memory.new ≡ cleared_one region info.now memory.old }
{
    let cell = info.first.0 as usize;
    if info.scope.is_local_of(region) {
        if cell < memory.len() {
            memory.set(cell, 0);
        }
    }
}

impl Lines {
    pub(crate) fn new(alloc: Global) -> Lines {
        Lines {
            changed: Row::new(alloc),
            sets: Row::new(alloc),
            text: Row::new(alloc),
        }
    }

    /// Gathers the lines of the iteration that is over, by what is kept of it.
    pub(crate) fn gather(
        &mut self,
        views: &mut Views<'_>,
        iteration: u64,
        again: bool,
        prints: &[i64],
    ) -> Result<(), NoMemory>
        ensures same { views.new ≡ views.old }
        ensures text { Cleared views.old.program views.old.plan views.old.before → Cleared views.old.program views.old.plan views.old.source →
            OnOk result (self.new.text ≡ group_bytes iteration again (sets_between views.old.before views.old.source) prints.now) }
    {
        views.changes(&mut self.changed)?;
        put_sets(self.changed.as_slice(), views.source(), &mut self.sets)?;
        self.text.clear();
        put_group(
            &mut self.text,
            iteration,
            again,
            self.sets.as_slice(),
            prints,
        )
    }

    /// Gathers the lines of the iteration that is the last one, from the memories before and behind it.
    pub(crate) fn gather_last(
        &mut self,
        before: &[i64],
        after: &[i64],
        iteration: u64,
        again: bool,
        prints: &[i64],
    ) -> Result<(), NoMemory>
        ensures { OnOk result (self.new.text ≡ group_bytes iteration again (sets_between before.now after.now) prints.now) }
    {
        put_changed(before, after, &mut self.changed)?;
        put_sets(self.changed.as_slice(), after, &mut self.sets)?;
        self.text.clear();
        put_group(
            &mut self.text,
            iteration,
            again,
            self.sets.as_slice(),
            prints,
        )
    }

    /// The lines that were gathered last.
    pub(crate) fn text(&self) -> &[u8]
        ensures { result.now ≡ self.now.text }
    {
        self.text.as_slice()
    }
}
