//! The file-scope variables at the end of a run.

ghost use Rattle.std.specs.Prelude.{◌≡◌, ◌++◌, OnOk};
ghost use Rattle.dp_report.specs.StateText.{variable_values, variable_line, state_bytes};

use crate::decimal::put_spaced_signed;
use dp_base::{NoMemory, Row};
use dp_tree::{VarInfo, VarScope};

/// `state`, and a line for each file-scope variable, in text order: its name and its values.
pub fn put_state(out: &mut Row<u8>, vars: &[VarInfo], cells: &[i64]) -> Result<(), NoMemory>
    ensures { OnOk result (out.new ≡ out.old ++ state_bytes vars.now cells.now) }
{
    out.extend_from_slice(b"state\n")?;
    for var in vars {
        if matches!(var.scope, VarScope::Global) {
            put_variable(out, var, cells)?;
        }
    }
    Ok(())
}

fn put_variable(out: &mut Row<u8>, var: &VarInfo, cells: &[i64]) -> Result<(), NoMemory>
    ensures { OnOk result (out.new ≡ out.old ++ variable_line cells.now var.now) }
{
    out.extend_from_slice(var.name.as_slice())?;
    put_spaced_signed(out, values(var, cells))?;
    out.push(b'\n')
}

/// The variable's cells.
fn values<'c>(var: &VarInfo, cells: &'c [i64]) -> &'c [i64]
    ensures { result.now ≡ variable_values cells.now var.now }
{
    let first = cells.len().min(var.first.0 as usize);
    let behind = &cells[first..];
    &behind[..behind.len().min(var.length as usize)]
}
