//! Flows in rows, one for each site that they come from.
ghost use Rattle.std.specs.Prelude.{◌≡◌, ◌++◌, ◌/◌, slice_get, map, [], IfOk, OnOk};
ghost use Rattle.dp_observe.specs.steps.Taken as taken;

use dp_base::{NoMemory, Row};
use dp_profile::{Flow, RegionSite};
use std::alloc::Global;

/// The flow of a kind, if a load showed it.
fn push_flow(
    out: &mut Row<Flow>,
    from: RegionSite,
    to: RegionSite,
    carried: bool,
    shown: u64,
) -> Result<(), NoMemory>
    ensures { OnOk result (out.new ≡ out.old ++ taken.one_flow shown from to carried) }
{
    if shown == 0 {
        return Ok(());
    }
    out.push(Flow {
        from: from.site,
        to: to.site,
        carried,
        shown,
    })
}

/// The flow of a column, in the row of its first site.
pub(crate) fn put_flow(
    rows: &mut Row<Row<Flow>>,
    sites: &[RegionSite],
    to: RegionSite,
    column: usize,
    shown: u64,
) -> Result<(), NoMemory>
    ensures { OnOk result (taken.Puts to column shown (slice_get sites.now (column / 2)) (slice_get rows.old (column / 2)) rows.old rows.new) }
{
    let place = column / 2;
    if let Some(from) = sites.get(place) {
        if let Some(row) = rows.get_mut(place) {
            push_flow(row, *from, to, column % 2 == 1, shown)?;
        }
    }
    Ok(())
}

/// An empty row for each site.
pub(crate) fn empty_rows(alloc: Global, sites: &[RegionSite]) -> Result<Row<Row<Flow>>, NoMemory>
    ensures { IfOk result (λ rows. rows ≡ map (λ _. []) sites.now) }
{
    let mut rows = Row::new(alloc);
    for _site in sites {
        rows.push(Row::new(alloc))?;
    }
    Ok(rows)
}

/// The rows one after the other.
pub(crate) fn joined(alloc: Global, rows: &[Row<Flow>]) -> Result<Row<Flow>, NoMemory>
    ensures { IfOk result (λ all. all ≡ taken.all_rows rows.now) }
{
    let mut all = Row::new(alloc);
    for row in rows {
        all.extend_from_slice(row.as_slice())?;
    }
    Ok(all)
}
