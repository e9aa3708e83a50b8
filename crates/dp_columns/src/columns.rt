//! The columns of all places.
ghost use Rattle.std.specs.Prelude.{◌≡◌, ◌+◌, map, length, replicate, IfOk};
ghost use Rattle.dp_columns.specs.Columned.{nothing_kept};
ghost use Rattle.dp_columns.specs.Held.{AreEmpty, IsEmpty, IsNone, FrontIs, no_events};
ghost use Rattle.dp_columns.specs.declared.column.Column.{Column};

use crate::ColumnKind;
use crate::column::Column;
use crate::events::Events;
use dp_room::{NoMemory, Row};
use std::alloc::Global;
use std::marker::Model;

/// For each place what its site did and loaded, in bare values. Contracts see the queues, without what isn't ended yet.
#[derive(Drop)]
pub struct Columns {
    pub(crate) told: Row<Column>,
    pub(crate) loads: Row<Events>,
}

impl Model for Columns {
    ghost use Rattle.std.specs.Prelude.{◌≡◌, length};
    ghost use Rattle.dp_columns.specs.Columned.{Columned};
    ghost use Rattle.dp_columns.specs.Viewed.{kept_of};

    ghost Value = { Columned };

    ghost view = { λ columns. kept_of columns.told columns.loads };

    ghost invariant = { λ columns. length columns.loads ≡ length columns.told };
}

/// A column for each kind.
fn empty_columns(alloc: Global, kinds: &[ColumnKind]) -> Result<Row<Column>, NoMemory>
    ensures { IfOk result (AreEmpty kinds.now) }
{
    let mut told = Row::with_capacity(alloc, kinds.len())?;
    for kind in kinds {
        told.push(Column::new(alloc, *kind))?;
    }
    Ok(told)
}

/// So many lists of no events.
fn empty_events(alloc: Global, places: usize) -> Result<Row<Events>, NoMemory>
    ensures { IfOk result (λ loads. loads ≡ replicate places no_events) }
{
    let mut loads = Row::with_capacity(alloc, places)?;
    for _place in 0..places {
        loads.push(Events::new(alloc))?;
    }
    Ok(loads)
}

/// The column at a place holds nothing again.
fn clear_column(told: &mut Row<Column>, place: usize)
    ensures kinds { map (λ (c : Column). c.kind) told.new ≡ map (λ (c : Column). c.kind) told.old }
    ensures empty { FrontIs IsEmpty place told.old → FrontIs IsEmpty (place + 1) told.new }
{
    if let Some(column) = told.get_mut(place) {
        column.clear();
    }
}

/// No column holds anything.
fn clear_columns(told: &mut Row<Column>)
    ensures { AreEmpty (map (λ (c : Column). c.kind) told.old) told.new }
{
    for place in 0..told.len() {
        clear_column(told, place);
    }
}

/// The events at a place are none again.
fn clear_place(loads: &mut Row<Events>, place: usize)
    ensures long { length loads.new ≡ length loads.old }
    ensures empty { FrontIs IsNone place loads.old → FrontIs IsNone (place + 1) loads.new }
{
    if let Some(events) = loads.get_mut(place) {
        events.clear();
    }
}

/// There are no events.
fn clear_events(loads: &mut Row<Events>)
    ensures { loads.new ≡ replicate (length loads.old) no_events }
{
    for place in 0..loads.len() {
        clear_place(loads, place);
    }
}

impl Columns {
    /// Columns of these kinds, which hold nothing yet.
    pub fn new(alloc: Global, kinds: &[ColumnKind]) -> Result<Columns, NoMemory>
        ensures { IfOk result (λ columns. columns ≡ nothing_kept kinds.now) }
    {
        let told = empty_columns(alloc, kinds)?;
        let loads = empty_events(alloc, kinds.len())?;
        Ok(Columns { told, loads })
    }

    /// Nothing again. The rooms stay.
    pub fn clear(&mut self)
        ensures { self.new ≡ nothing_kept self.old.kinds }
    {
        clear_columns(&mut self.told);
        clear_events(&mut self.loads);
    }
}
