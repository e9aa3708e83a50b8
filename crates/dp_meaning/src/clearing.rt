//! What clears the body locals of each region.
ghost use Rattle.std.specs.Prelude.{◌≡◌, ◌<◌, ◌≤◌, ℕ, List, [], ◌++◌, ◌∷◌, ℤ, length, get_or, slice_set, IfOk, OnOk};
ghost use Rattle.dp_tree.specs.Step.{clear_locals};
ghost use Rattle.dp_semantics.specs.Told.{with_stores};
ghost use Rattle.dp_meaning.specs.Places as definition;

use dp_base::{NoMemory, Row, StoreOf};
use dp_tree::{VarInfo, VarScope};
use std::alloc::Global;

/// Appends empty rows up to so many.
#[tactic(auto, using(crate::proofs::ClearingLemmas::rows_grow))]
fn grow(alloc: Global, rows: &mut Row<Row<StoreOf>>, len: usize) -> Result<(), NoMemory>
    ensures long { OnOk result (len ≤ length rows.new) }
    ensures same { OnOk result ((r : ℕ) → get_or rows.new r [] ≡ get_or rows.old r []) }
{
    while rows.len() < len {
        rows.push(Row::new(alloc))?;
    }
    Ok(())
}

/// Appends a store to the row at a place.
fn put(rows: &mut Row<Row<StoreOf>>, place: usize, store: StoreOf) -> Result<(), NoMemory>
    requires { place < length rows.old }
    ensures { OnOk result (rows.new ≡ slice_set rows.old place (get_or rows.old place [] ++ store ∷ [])) }
{
    if let Some(row) = rows.get_mut(place) {
        row.push(store)?;
    }
    Ok(())
}

/// Adds the store that clears a variable to the row of the region whose body local it is, if there is one.
fn add(alloc: Global, rows: &mut Row<Row<StoreOf>>, info: &VarInfo) -> Result<(), NoMemory>
    ensures { OnOk result ((r : ℕ) (cells : List ℤ) → with_stores (get_or rows.new r []) cells ≡
        clear_locals r (info.now ∷ []) (with_stores (get_or rows.old r []) cells)) }
{
    match info.scope {
        VarScope::Body(region) => {
            let place = region as usize;
            let store = StoreOf {
                cell: info.first,
                value: 0,
            };
            grow(alloc, rows, place + 1)?;
            put(rows, place, store)
        }
        VarScope::Global | VarScope::Outer => Ok(()),
    }
}

/// For each region, by its number, the stores that clear its body locals.
pub(crate) fn clearing_of(alloc: Global, vars: &[VarInfo]) -> Result<Row<Row<StoreOf>>, NoMemory>
    ensures { IfOk result (definition.Clears vars.now) }
{
    let mut rows = Row::new(alloc);
    for info in vars {
        add(alloc, &mut rows, info)?;
    }
    Ok(rows)
}
