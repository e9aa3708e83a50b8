//! What comes next of a site: from the reader of its stage.
ghost use Rattle.std.specs.Prelude.{◌≡◌, ◌<◌, length, Some, IfSome};
ghost use Rattle.std.specs.Option.{option_map};
ghost use Rattle.std.specs.List.{list_all};
ghost use Rattle.dp_base.specs.declared.SiteId.{SiteId};
ghost use Rattle.dp_tree.specs.declared.Program.{Program};
ghost use Rattle.dp_plan.specs.declared.Plan.{Plan};
ghost use Rattle.dp_lean.specs.Queues.{Did};
ghost use Rattle.dp_lean.specs.LeanJudge.{load_holds};
ghost use Rattle.dp_columns.specs.declared.ColumnKind.TheVariants as kind;
ghost use Rattle.dp_columns.specs.Paired.{pairs_of, block_told};
ghost use Rattle.dp_lean_judge.specs.JudgeState.{LeanState};
ghost use Rattle.dp_lean_judge.specs.Judged.{SameWhereChecked};
ghost use Rattle.dp_lean_judge.specs.Shown.{ShowsQueues, reader_at};
ghost use Rattle.dp_lean_judge.specs.Ready.{seat_kind};
ghost use Rattle.dp_lean_judge.specs.steps.Taking.{Compares, IsSeat, SameKinds, Took, TookOfLoads, told_count};

use crate::ready::Seat;
use dp_base::{Cells, Row};
use dp_columns::Reader;
use dp_engine::Memory;

/// The next value of a site of which values alone are kept, of this cell.
#[inline(always)]
pub(crate) fn next_value<'c>(readers: &mut Row<Reader<'c>>, seat: Seat, cell: u32) -> Option<i64>
    requires { seat_kind readers.old seat ≡ Some (kind.Value cell) }
    ensures { Took readers.old seat (option_map (Did cell) result) readers.new }
{
    match readers.get_mut(seat.reader) {
        Some(reader) => reader.next_value(seat.column),
        None => None,
    }
}

/// The next cell and value of a site of which both are kept.
#[inline(always)]
pub(crate) fn next_element<'c>(readers: &mut Row<Reader<'c>>, seat: Seat) -> Option<(u32, i64)>
    requires { seat_kind readers.old seat ≡ Some kind.Element }
    ensures { Took readers.old seat (option_map (λ pair. Did pair.0 pair.1) result) readers.new }
{
    match readers.get_mut(seat.reader) {
        Some(reader) => reader.next_element(seat.column),
        None => None,
    }
}

/// The stores of the site's next block, as cells and values.
#[inline(always)]
pub(crate) fn next_block<'c>(
    readers: &mut Row<Reader<'c>>,
    seat: Seat,
) -> Option<(&'c [u32], &'c [i64])>
    requires { seat_kind readers.old seat ≡ Some kind.Block }
    ensures { Took readers.old seat (option_map (λ part. block_told (pairs_of part.0.now part.1.now)) result) readers.new }
{
    match readers.get_mut(seat.reader) {
        Some(reader) => reader.next_block(seat.column),
        None => None,
    }
}

/// The loads of the site's next event, as cells and values.
#[inline(always)]
fn next_loads<'c>(readers: &mut Row<Reader<'c>>, seat: Seat) -> Option<(&'c [u32], &'c [i64])>
    requires { seat.column < length (reader_at readers.old seat.reader).kinds }
    ensures { TookOfLoads readers.old seat (option_map (λ part. pairs_of part.0.now part.1.now) result) readers.new }
{
    match readers.get_mut(seat.reader) {
        Some(reader) => reader.next_loads(seat.column),
        None => None,
    }
}

/// Each load gave what the memory holds.
fn hold(cells: &Cells, loaded: &[u32], values: &[i64]) -> bool
    ensures { result ≡ list_all (load_holds cells.now) (pairs_of loaded.now values.now) }
{
    for (cell, value) in loaded.iter().zip(values.iter()) {
        if cells.load(*cell) != *value {
            return false;
        }
    }
    true
}

/// The site isn't checked, or its next loads hold.
#[inline(always)]
pub(crate) fn agrees<'c>(cells: &Cells, readers: &mut Row<Reader<'c>>, seat: Seat) -> bool
    requires { seat.column < length (reader_at readers.old seat.reader).kinds }
    ensures compares { (p : Program) (plan : Plan) (site : SiteId) (c : LeanState) → IsSeat p plan site seat → SameWhereChecked p plan c.cells cells.now →
        ShowsQueues p plan readers.old c.queues c.loads →
        Compares p plan c site result readers.new }
    ensures kinds { SameKinds readers.old readers.new }
    ensures count { told_count readers.new ≡ told_count readers.old }
{
    if !seat.checked {
        return true;
    }
    match next_loads(readers, seat) {
        Some((loaded, values)) => hold(cells, loaded, values),
        None => false,
    }
}
