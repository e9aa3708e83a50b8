//! The bindings of a call's arguments to the parameters.

ghost use Rattle.std.specs.Prelude.{◌≡◌, ◌∷◌, [], OnOk};
ghost use Rattle.dp_inline.specs.steps.Written.{written, after_bindings};

use crate::expr::rename;
use crate::names::Names;
use crate::piece::Writer;
use dp_base::{NoMemory, VarId};
use dp_tree::{Expr, Program, SiteInfo, SiteKind, Stmt};

/// The binding of an argument to a parameter.
#[tactic(auto, using(crate::proofs::FormLemmas::forms))]
fn bind(
    p: &Program,
    region: u32,
    line: u32,
    caller: &Names,
    out: &mut Writer,
    param: VarId,
    arg: &Expr,
) -> Result<(), NoMemory>
    ensures { OnOk result (written out.new ≡ after_bindings p.now region line caller.now (written out.old) (param ∷ []) (arg.now ∷ [])) }
{
    let value = rename(out.alloc, caller, arg)?;
    let number = out.next()?;
    out.site(SiteInfo {
        line,
        kind: SiteKind::Assign,
        region,
    })?;
    out.local(p, region, param.0)?;
    let var = out.names.target(param);
    out.put(Stmt::Assign {
        site: number,
        var,
        value,
    })?;
    Ok(())
}

/// The bindings of the arguments, in the caller's names.
pub fn bindings(
    p: &Program,
    region: u32,
    line: u32,
    caller: &Names,
    out: &mut Writer,
    params: &[VarId],
    args: &[Expr],
) -> Result<(), NoMemory>
    ensures { OnOk result (written out.new ≡ after_bindings p.now region line caller.now (written out.old) params.now args.now) }
{
    let count = params.len().min(args.len());
    for i in 0..count {
        bind(p, region, line, caller, out, params[i], &args[i])?;
    }
    Ok(())
}
