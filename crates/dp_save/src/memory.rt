//! In which memories a program may stand before an iteration.
ghost use Rattle.std.specs.Prelude.{◌≡◌, ◌==◌, length};
ghost use Rattle.std.specs.List.{list_all};
ghost use Rattle.std.specs.Option.{option_copied};
ghost use Rattle.dp_tree.specs.Trace.{start_cells};
ghost use Rattle.dp_save.specs.steps.Reading as spec;

use dp_tree::{Program, VarInfo, VarScope};

/// There are so many cells.
#[tactic(auto, using(crate::proofs::LoopLemmas::cells_go_on))]
fn has_cells(vars: &[VarInfo], count: usize) -> bool
    ensures { result ≡ (length (start_cells vars.now) == count) }
{
    let mut left = count;
    for info in vars {
        let length = info.length as usize;
        if left < length {
            return false;
        }
        left -= length;
    }
    left == 0
}

#[tactic(auto, unfolding(dp_base::specs::Arithmetic::is_zero))]
fn is_zero_at(value: Option<&i64>) -> bool
    ensures { result ≡ spec.is_zero_at (option_copied value.entry) }
{
    match value {
        None => true,
        Some(value) => *value == 0,
    }
}

/// A local of a region's body reads 0.
fn rests(info: &VarInfo, cells: &[i64]) -> bool
    ensures { result ≡ spec.rests cells.now info.now }
{
    match info.scope {
        VarScope::Body(_) => is_zero_at(cells.get(info.first.0 as usize)),
        VarScope::Global | VarScope::Outer => true,
    }
}

fn all_rest(vars: &[VarInfo], cells: &[i64]) -> bool
    ensures { result ≡ list_all (spec.rests cells.now) vars.now }
{
    for info in vars {
        if !rests(info, cells) {
            return false;
        }
    }
    true
}

/// There is a value for each cell, and the locals of regions' bodies are 0.
pub fn cells_fit(p: &Program, cells: &[i64]) -> bool
    ensures { result ≡ spec.cells_fit p.now.vars cells.now }
{
    let vars = p.vars.as_slice();
    has_cells(vars, cells.len()) && all_rest(vars, cells)
}
