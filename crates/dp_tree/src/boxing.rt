//! Expressions, made of their operands.
ghost use Rattle.std.specs.Prelude.{◌≡◌, IfOk};

use crate::Expr;
use dp_base::{BinOp, Boxed, NoMemory, UnOp, VarId};
use std::alloc::Global;

fn boxes(alloc: Global, left: Expr, right: Expr) -> Result<(Boxed<Expr>, Boxed<Expr>), NoMemory>
    ensures { IfOk result (λ boxes. boxes ≡ (left, right)) }
{
    let left = Boxed::new(alloc, left)?;
    let right = Boxed::new(alloc, right)?;
    Ok((left, right))
}

impl Expr {
    pub fn input(alloc: Global, index: Expr) -> Result<Expr, NoMemory>
        ensures { IfOk result (λ e. e ≡ Expr.Input index) }
    {
        Ok(Expr::Input(Boxed::new(alloc, index)?))
    }

    pub fn element(alloc: Global, var: VarId, index: Expr) -> Result<Expr, NoMemory>
        ensures { IfOk result (λ e. e ≡ Expr.Element var index) }
    {
        Ok(Expr::Element(var, Boxed::new(alloc, index)?))
    }

    pub fn unary(alloc: Global, op: UnOp, operand: Expr) -> Result<Expr, NoMemory>
        ensures { IfOk result (λ e. e ≡ Expr.Unary op operand) }
    {
        Ok(Expr::Unary(op, Boxed::new(alloc, operand)?))
    }

    pub fn binary(alloc: Global, op: BinOp, left: Expr, right: Expr) -> Result<Expr, NoMemory>
        ensures { IfOk result (λ e. e ≡ Expr.Binary op left right) }
    {
        let (left, right) = boxes(alloc, left, right)?;
        Ok(Expr::Binary(op, left, right))
    }

    pub fn and(alloc: Global, left: Expr, right: Expr) -> Result<Expr, NoMemory>
        ensures { IfOk result (λ e. e ≡ Expr.And left right) }
    {
        let (left, right) = boxes(alloc, left, right)?;
        Ok(Expr::And(left, right))
    }

    pub fn or(alloc: Global, left: Expr, right: Expr) -> Result<Expr, NoMemory>
        ensures { IfOk result (λ e. e ≡ Expr.Or left right) }
    {
        let (left, right) = boxes(alloc, left, right)?;
        Ok(Expr::Or(left, right))
    }
}
