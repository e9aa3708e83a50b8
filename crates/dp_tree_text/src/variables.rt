//! The lines of variables.
ghost use Rattle.std.specs.Prelude.{◌≡◌, ◌++◌, OnOk};
ghost use Rattle.dp_report.specs.Lines.{numbered};
ghost use Rattle.dp_tree_text.specs.VariableText.{form_name, scope_text, start_text, variable_entry};

use dp_base::{NoMemory, Row};
use dp_text::put_labelled;
use dp_tree::{VarInfo, VarScope};
use itoa::Buffer;

pub fn put_variables(out: &mut Row<u8>, vars: &[VarInfo]) -> Result<(), NoMemory>
    ensures { OnOk result (out.new ≡ out.old ++ numbered variable_entry 0 vars.now) }
{
    for (place, var) in vars.iter().enumerate() {
        put_variable(out, place as u64, var)?;
    }
    Ok(())
}

fn put_variable(out: &mut Row<u8>, number: u64, var: &VarInfo) -> Result<(), NoMemory>
    ensures { OnOk result (out.new ≡ out.old ++ variable_entry number var.now) }
{
    put_labelled(out, b"var ", number)?;
    out.push(b' ')?;
    out.extend_from_slice(var.name.as_slice())?;
    out.extend_from_slice(form_name(var.array))?;
    put_labelled(out, b" first ", u64::from(var.first.0))?;
    put_labelled(out, b" length ", u64::from(var.length))?;
    put_start(out, var.start)?;
    put_scope(out, var.scope)?;
    out.push(b'\n')
}

fn form_name(array: bool) -> &'static [u8]
    ensures { result.now ≡ form_name array }
{
    if array { b" array" } else { b" scalar" }
}

fn put_start(out: &mut Row<u8>, start: i64) -> Result<(), NoMemory>
    ensures { OnOk result (out.new ≡ out.old ++ start_text start) }
{
    let mut digits = Buffer::new();
    out.extend_from_slice(b" start ")?;
    out.extend_from_slice(digits.format(start).as_bytes())
}

fn put_scope(out: &mut Row<u8>, scope: VarScope) -> Result<(), NoMemory>
    ensures { OnOk result (out.new ≡ out.old ++ scope_text scope) }
{
    match scope {
        VarScope::Global => out.extend_from_slice(b" global"),
        VarScope::Outer => out.extend_from_slice(b" outer"),
        VarScope::Body(region) => put_labelled(out, b" body ", u64::from(region)),
    }
}
