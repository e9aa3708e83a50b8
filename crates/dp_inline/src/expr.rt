//! Expressions in the names of an expanded call.

ghost use Rattle.std.specs.Prelude.{◌≡◌, IfOk};
ghost use Rattle.dp_inline.specs.steps.Written.{expr_in};

use crate::names::Names;
use dp_base::NoMemory;
use dp_tree::Expr;
use std::alloc::Global;

/// The expression with each variable replaced by the one that stands for it.
#[tactic(auto, using(crate::proofs::ExprLemmas::expr_forms))]
pub fn rename(alloc: Global, names: &Names, e: &Expr) -> Result<Expr, NoMemory>
    ensures { IfOk result (λ r. r ≡ expr_in names.now e.now) }
{
    match e {
        Expr::Number(n) => Ok(Expr::Number(*n)),
        Expr::Input(e) => {
            let e = rename(alloc, names, e.get())?;
            Ok(Expr::input(alloc, e)?)
        }
        Expr::InputLen => Ok(Expr::InputLen),
        Expr::Scalar(var) => Ok(Expr::Scalar(names.target(*var))),
        Expr::Element(var, e) => {
            let e = rename(alloc, names, e.get())?;
            Ok(Expr::element(alloc, names.target(*var), e)?)
        }
        Expr::Unary(op, a) => {
            let a = rename(alloc, names, a.get())?;
            Ok(Expr::unary(alloc, *op, a)?)
        }
        Expr::Binary(op, a, b) => {
            let a = rename(alloc, names, a.get())?;
            let b = rename(alloc, names, b.get())?;
            Ok(Expr::binary(alloc, *op, a, b)?)
        }
        Expr::And(a, b) => {
            let a = rename(alloc, names, a.get())?;
            let b = rename(alloc, names, b.get())?;
            Ok(Expr::and(alloc, a, b)?)
        }
        Expr::Or(a, b) => {
            let a = rename(alloc, names, a.get())?;
            let b = rename(alloc, names, b.get())?;
            Ok(Expr::or(alloc, a, b)?)
        }
    }
}
