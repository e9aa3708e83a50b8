//! The forms of expressions with an operator.

ghost use Rattle.std.specs.Prelude.{◌≡◌, IsTrue, length, Ok};
ghost use Rattle.std.specs.Option.{IfSome};
ghost use Rattle.dp_base.specs.Arithmetic.{binary_result, unary_result};
ghost use Rattle.dp_base.specs.declared.BinOp.{BinOp};
ghost use Rattle.dp_base.specs.declared.BinOp.TheVariants as op;
ghost use Rattle.dp_base.specs.declared.UnOp.{UnOp};
ghost use Rattle.dp_base.specs.declared.UnOp.TheVariants as prefix;
ghost use Rattle.dp_forms.specs.Values.{HasEvaluated, OfBinary, OfUnary};

use super::values::Value;
use dp_base::{BinOp, UnOp};
use dp_tree::{Expr, Program};
use std::marker::PhantomData;

/// An operator of two operands.
pub trait Operator {
    ghost operator: { BinOp };

    fn is(given: BinOp) -> bool
        ensures { IsTrue result → given ≡ operator };

    /// The operation's value; None stands for a fault.
    fn apply(a: i64, b: i64) -> Option<i64>
        ensures { IfSome result (λ v. binary_result operator a b ≡ Ok v) };
}

/// An operator of one operand.
pub trait Prefix {
    ghost operator: { UnOp };

    fn is(given: UnOp) -> bool
        ensures { IsTrue result → given ≡ operator };

    fn apply(a: i64) -> Option<i64>
        ensures { IfSome result (λ v. unary_result operator a ≡ Ok v) };
}

/// The operator O on the values of A and B.
pub struct Binary<O, A, B> {
    of: PhantomData<(O, A, B)>,
}

impl<const N: usize, O: Operator, A: Value<N>, B: Value<N>> Value<N> for Binary<O, A, B> {
    ghost is_of = { OfBinary O.operator A.is_of B.is_of };

    fn is(program: &Program, homes: &[u32], size: u32, expression: &Expr) -> bool {
        match expression {
            Expr::Binary(operator, left, right) => {
                O::is(*operator)
                    && A::is(program, homes, size, left.get())
                    && B::is(program, homes, size, right.get())
            }
            _ => false,
        }
    }

    #[inline(always)]
    fn value<W>(input: &[i64], memory: &[i64], registers: &[i64; N]) -> Option<i64> {
        let a = A::value::<W>(input, memory, registers)?;
        let b = B::value::<W>(input, memory, registers)?;
        O::apply(a, b)
    }
}

/// The operator O on the value of A.
pub struct Unary<O, A> {
    of: PhantomData<(O, A)>,
}

impl<const N: usize, O: Prefix, A: Value<N>> Value<N> for Unary<O, A> {
    ghost is_of = { OfUnary O.operator A.is_of };

    fn is(program: &Program, homes: &[u32], size: u32, expression: &Expr) -> bool {
        match expression {
            Expr::Unary(operator, operand) => {
                O::is(*operator) && A::is(program, homes, size, operand.get())
            }
            _ => false,
        }
    }

    #[inline(always)]
    fn value<W>(input: &[i64], memory: &[i64], registers: &[i64; N]) -> Option<i64> {
        let a = A::value::<W>(input, memory, registers)?;
        O::apply(a)
    }
}
