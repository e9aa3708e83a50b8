//! The text of a program.
ghost use Rattle.std.specs.Prelude.{◌≡◌, IfOk};
ghost use Rattle.dp_tree_text.specs.TreeText.{tree_bytes};

use crate::statements::put_statements;
use crate::variables::put_variables;
use dp_base::{NoMemory, Row};
use dp_report::site_text;
use dp_tree::Program;
use std::alloc::Global;

/// The list of the program's regions and sites, its variables, and the statements of `main`.
pub fn write_tree(alloc: Global, p: &Program) -> Result<Row<u8>, NoMemory>
    ensures { IfOk result (λ text. text ≡ tree_bytes p.now) }
{
    let mut out = site_text(alloc, p)?;
    put_variables(&mut out, p.vars.as_slice())?;
    out.extend_from_slice(b"main\n")?;
    put_statements(&mut out, p.main.as_slice())?;
    out.extend_from_slice(b"end\n")?;
    Ok(out)
}
