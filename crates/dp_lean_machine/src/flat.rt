//! The cells of a version in one list, where they are few: loads and stores don't look for a page then.
ghost use Rattle.std.specs.Prelude.{◌≡◌, ◌≤◌, length, slice_get, true, is_some, IfOk, IfSome};

use dp_base::{CellId, Cells, NoMemory};
use dp_memory::Version;
use std::alloc::Global;

/// A memory of more cells isn't copied for a batch.
const MOST: u32 = 1_024;

/// Whether the version has this cell.
fn has(version: &Version, cell: u32) -> bool
    ensures { result ≡ is_some (slice_get version.now cell) }
{
    version.find(CellId(cell)).is_some()
}

/// Whether the version has so many cells.
fn has_so_many(version: &Version, count: u32) -> bool
    ensures { result ≡ true → count ≡ length version.now }
{
    !has(version, count) && (count == 0 || has(version, count - 1))
}

/// How many cells the version has, if they are few. It is tried first whether they are as many as the last one had.
fn count_of(version: &Version, last: u32) -> Option<u32>
    ensures { IfSome result (λ count. count ≡ length version.now) }
{
    if has_so_many(version, last) {
        return Some(last);
    }
    for count in 0..MOST + 1 {
        if has_so_many(version, count) {
            return Some(count);
        }
    }
    None
}

/// All cells of the version, which has so many.
fn copied(alloc: Global, version: &Version, count: u32) -> Result<Cells, NoMemory>
    requires { count ≡ length version.now }
    ensures { IfOk result (λ cells. cells ≡ version.now) }
{
    let mut values = Vec::with_capacity(alloc, count as usize)?;
    let mut pages = version.pages(CellId(0), count);
    while let Some(page) = pages.next() {
        values.extend_from_slice(page)?;
    }
    Ok(Cells::from_values(alloc, values))
}

/// The cells of the version in one list, if they are few and there is room for them. `last` is how many the last version had.
pub(crate) fn flat_of(alloc: Global, version: &Version, last: &mut u32) -> Option<Cells>
    ensures { IfSome result (λ cells. cells ≡ version.now) }
{
    let count = count_of(version, *last)?;
    *last = count;
    match copied(alloc, version, count) {
        Ok(cells) => Some(cells),
        Err(NoMemory) => None,
    }
}
