//! The variables that an expression may load.
ghost use Rattle.std.specs.Prelude.{◌≡◌, ◌++◌, OnOk, IfOk};
ghost use Rattle.dp_depend.specs.Lists.{load_list};

use dp_base::{NoMemory, Row};
use dp_tree::Expr;
use std::alloc::Global;

/// Appends the variables that the expression may load, by its text.
#[tactic(auto, using(crate::proofs::LoadForms::load_forms))]
fn put_loads(out: &mut Row<u32>, e: &Expr) -> Result<(), NoMemory>
    ensures { OnOk result (out.new ≡ out.old ++ load_list e.now) }
{
    match e {
        Expr::Number(_) | Expr::InputLen => Ok(()),
        Expr::Input(index) => put_loads(out, index.get()),
        Expr::Scalar(var) => out.push(var.0),
        Expr::Element(var, index) => {
            out.push(var.0)?;
            put_loads(out, index.get())?;
            Ok(())
        }
        Expr::Unary(_, a) => put_loads(out, a.get()),
        Expr::Binary(_, a, b) | Expr::And(a, b) | Expr::Or(a, b) => {
            put_loads(out, a.get())?;
            put_loads(out, b.get())?;
            Ok(())
        }
    }
}

/// The variables that the expression may load.
pub fn loads_of(alloc: Global, e: &Expr) -> Result<Row<u32>, NoMemory>
    ensures { IfOk result (λ loads. loads ≡ load_list e.now) }
{
    let mut loads = Row::new(alloc);
    put_loads(&mut loads, e)?;
    Ok(loads)
}

/// The variables that either expression may load.
pub fn loads_of_both(alloc: Global, one: &Expr, other: &Expr) -> Result<Row<u32>, NoMemory>
    ensures { IfOk result (λ loads. loads ≡ load_list one.now ++ load_list other.now) }
{
    let mut loads = Row::new(alloc);
    put_loads(&mut loads, one)?;
    put_loads(&mut loads, other)?;
    Ok(loads)
}
