//! A graph, by its edges and by the rows of its nodes.
ghost use Rattle.std.specs.Prelude.{◌≡◌, ◌++◌, [], ◌∷◌, length, All, IfOk, OnOk};
ghost use Rattle.dp_units.specs.Graph.{AreWithin};
ghost use Rattle.dp_units.specs.steps.Rows.{IsGraph};

use dp_room::NoMemory;
use std::alloc::Global;

/// A graph: its edges, and for each node what its edges lead to.
#[derive(Clone, Copy)]
pub struct Graph<'a> {
    pub edges: &'a [(u32, u32)],
    pub rows: &'a [Vec<u32>],
}

/// For each node below `count` what its edges lead to.
pub fn rows(alloc: Global, count: u32, edges: &[(u32, u32)]) -> Result<Vec<Vec<u32>>, NoMemory>
    requires { AreWithin count edges.now }
    ensures graph { IfOk result (λ rows. IsGraph edges.now rows.items) }
    ensures count { IfOk result (λ rows. length rows.items ≡ count) }
{
    let mut rows = empty_rows(alloc, count)?;
    for (from, to) in edges {
        add(&mut rows[*from as usize], *to)?;
    }
    Ok(rows)
}

/// So many rows, with nothing in them.
fn empty_rows(alloc: Global, count: u32) -> Result<Vec<Vec<u32>>, NoMemory>
    ensures count { IfOk result (λ rows. length rows.items ≡ count) }
    ensures empty { IfOk result (λ rows. All (λ row. row.items ≡ []) rows.items) }
{
    let mut rows = Vec::with_capacity(alloc, count as usize)?;
    for _row in 0..count {
        rows.push(Vec::new(alloc))?;
    }
    Ok(rows)
}

/// Adds a node at the end of a row.
fn add(row: &mut Vec<u32>, node: u32) -> Result<(), NoMemory>
    ensures { OnOk result (row.new.items ≡ row.old.items ++ node ∷ []) }
{
    row.push(node)?;
    Ok(())
}
