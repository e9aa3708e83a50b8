//! Expressions with names become expressions with numbers.

ghost use Rattle.std.specs.Prelude.{◌≡◌, IfOk};
ghost use Rattle.dp_tree.specs.declared.Expr.TheVariants.{Number};
ghost use Rattle.dp_check.specs.Resolved.{element_expr};
ghost use Rattle.dp_check.specs.Answer.{GivesChecked, expr_answer, args_answer};

use crate::names::Names;
use crate::{CheckFail, uses};
use dp_base::{NoMemory, Row, VarId};
use dp_tree::{Expr, RawExpr};
use std::alloc::Global;

/// An element of the array, or of the input.
fn element(alloc: Global, array: Option<VarId>, index: Expr) -> Result<Expr, NoMemory>
    ensures { IfOk result (λ e. e ≡ element_expr array index) }
{
    match array {
        Some(var) => Expr::element(alloc, var, index),
        None => Expr::input(alloc, index),
    }
}

/// The number itself.
fn number(n: i64) -> Expr
    ensures { result ≡ Number n }
{
    Expr::Number(n)
}

#[tactic(auto, using(crate::proofs::ExprLemmas::expr_answers))]
pub fn resolve(alloc: Global, names: &Names<'_>, e: &RawExpr) -> Result<Expr, CheckFail>
    ensures { GivesChecked (expr_answer names.now e.now) result }
{
    match e {
        RawExpr::Number(n) => Ok(number(*n)),
        RawExpr::Scalar(name) => uses::scalar(names, name),
        RawExpr::Element(name, index) => {
            let array = uses::array(names, name)?;
            let index = resolve(alloc, names, index.get())?;
            Ok(element(alloc, array, index)?)
        }
        RawExpr::Unary(op, a) => {
            let a = resolve(alloc, names, a.get())?;
            Ok(Expr::unary(alloc, *op, a)?)
        }
        RawExpr::Binary(op, a, b) => {
            let a = resolve(alloc, names, a.get())?;
            let b = resolve(alloc, names, b.get())?;
            Ok(Expr::binary(alloc, *op, a, b)?)
        }
        RawExpr::And(a, b) => {
            let a = resolve(alloc, names, a.get())?;
            let b = resolve(alloc, names, b.get())?;
            Ok(Expr::and(alloc, a, b)?)
        }
        RawExpr::Or(a, b) => {
            let a = resolve(alloc, names, a.get())?;
            let b = resolve(alloc, names, b.get())?;
            Ok(Expr::or(alloc, a, b)?)
        }
    }
}

/// The arguments of a call, from left to right.
pub fn resolve_all(
    alloc: Global,
    names: &Names<'_>,
    all: &[RawExpr],
) -> Result<Row<Expr>, CheckFail>
    ensures { GivesChecked (args_answer names.now all.now) result }
{
    let mut done = Row::new(alloc);
    for e in all {
        done.push(resolve(alloc, names, e)?)?;
    }
    Ok(done)
}
