//! What sites tell, put into their columns.
ghost use Rattle.std.specs.Prelude.{◌≡◌, ◌<◌, length, map, slice_get, OnOk, OnErr};
ghost use Rattle.dp_lean.specs.Queues.{Did};
ghost use Rattle.dp_columns.specs.Paired.{pair_load, pair_store};
ghost use Rattle.dp_columns.specs.Columned.{with_told, with_block_stores, block_ended, with_loads, loads_ended, ToldStays};
ghost use Rattle.dp_columns.specs.Columned.{KeepsValues, KeepsElements, KeepsBlocks, value_cell};

use crate::{Columns, Pair};
use dp_room::NoMemory;

impl Columns {
    /// A value of a site of which values alone are kept.
    #[inline(always)]
    pub fn put_value(&mut self, place: usize, value: i64) -> Result<(), NoMemory>
        requires { KeepsValues (slice_get self.old.kinds place) }
        ensures ok { OnOk result (self.new ≡ with_told place (Did (value_cell (slice_get self.old.kinds place)) value) self.old) }
        ensures err { OnErr result (self.new ≡ self.old) }
    {
        if let Some(column) = self.told.get_mut(place) {
            return column.values.push(value);
        }
        Err(NoMemory)
    }

    /// A cell and a value of a site of which both are kept.
    #[inline(always)]
    pub fn put_element(&mut self, place: usize, cell: u32, value: i64) -> Result<(), NoMemory>
        requires { KeepsElements (slice_get self.old.kinds place) }
        ensures ok { OnOk result (self.new ≡ with_told place (Did cell value) self.old) }
        ensures err { OnErr result (self.new ≡ self.old) }
    {
        if let Some(column) = self.told.get_mut(place) {
            return column.elements.put(cell, value);
        }
        Err(NoMemory)
    }

    /// A block is ended and told, with these stores behind those that wait. It is out of line, so that what is frequent stays short.
    #[inline(never)]
    pub fn put_block(&mut self, place: usize, stores: &[Pair]) -> Result<(), NoMemory>
        requires { KeepsBlocks (slice_get self.old.kinds place) }
        ensures ok { OnOk result (self.new ≡ block_ended place (with_block_stores place (map pair_store stores.now) self.old)) }
        ensures err { OnErr result (ToldStays self.old self.new) }
    {
        if let Some(column) = self.told.get_mut(place) {
            return column.blocks.put(stores);
        }
        Err(NoMemory)
    }

    /// An event is ended and its loads are told, with these behind those that wait.
    #[inline(never)]
    pub fn put_loads(&mut self, place: usize, loads: &[Pair]) -> Result<(), NoMemory>
        requires { place < length self.old.kinds }
        ensures ok { OnOk result (self.new ≡ loads_ended place (with_loads place (map pair_load loads.now) self.old)) }
        ensures err { OnErr result (ToldStays self.old self.new) }
    {
        if let Some(events) = self.loads.get_mut(place) {
            return events.put(loads);
        }
        Err(NoMemory)
    }
}
