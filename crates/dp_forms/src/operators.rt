//! The operators, each by itself.

ghost use Rattle.std.specs.Prelude.{◌≡◌, IsTrue, Ok};
ghost use Rattle.std.specs.Option.{IfSome};
ghost use Rattle.dp_base.specs.Arithmetic.{binary_result, unary_result};
ghost use Rattle.dp_base.specs.declared.BinOp.TheVariants as op;
ghost use Rattle.dp_base.specs.declared.UnOp.TheVariants as prefix;

use super::arithmetic::{Operator, Prefix};
use dp_base::{BinOp, UnOp};

/// `+`
pub struct Add {}

impl Operator for Add {
    ghost operator = { op.Add };

    fn is(given: BinOp) -> bool {
        match given {
            BinOp::Add => true,
            _ => false,
        }
    }

    #[inline(always)]
    fn apply(a: i64, b: i64) -> Option<i64> {
        dp_native::add(a, b)
    }
}

/// `-`
pub struct Sub {}

impl Operator for Sub {
    ghost operator = { op.Sub };

    fn is(given: BinOp) -> bool {
        match given {
            BinOp::Sub => true,
            _ => false,
        }
    }

    #[inline(always)]
    fn apply(a: i64, b: i64) -> Option<i64> {
        dp_native::sub(a, b)
    }
}

/// `*`
pub struct Mul {}

impl Operator for Mul {
    ghost operator = { op.Mul };

    fn is(given: BinOp) -> bool {
        match given {
            BinOp::Mul => true,
            _ => false,
        }
    }

    #[inline(always)]
    fn apply(a: i64, b: i64) -> Option<i64> {
        dp_native::mul(a, b)
    }
}

/// `/`
pub struct Div {}

impl Operator for Div {
    ghost operator = { op.Div };

    fn is(given: BinOp) -> bool {
        match given {
            BinOp::Div => true,
            _ => false,
        }
    }

    #[inline(always)]
    fn apply(a: i64, b: i64) -> Option<i64> {
        dp_native::div(a, b)
    }
}

/// `%`
pub struct Rem {}

impl Operator for Rem {
    ghost operator = { op.Rem };

    fn is(given: BinOp) -> bool {
        match given {
            BinOp::Rem => true,
            _ => false,
        }
    }

    #[inline(always)]
    fn apply(a: i64, b: i64) -> Option<i64> {
        dp_native::rem(a, b)
    }
}

/// `<`
pub struct Lt {}

impl Operator for Lt {
    ghost operator = { op.Lt };

    fn is(given: BinOp) -> bool {
        match given {
            BinOp::Lt => true,
            _ => false,
        }
    }

    #[inline(always)]
    fn apply(a: i64, b: i64) -> Option<i64> {
        Some(dp_native::lt_value(a, b))
    }
}

/// `<=`
pub struct Le {}

impl Operator for Le {
    ghost operator = { op.Le };

    fn is(given: BinOp) -> bool {
        match given {
            BinOp::Le => true,
            _ => false,
        }
    }

    #[inline(always)]
    fn apply(a: i64, b: i64) -> Option<i64> {
        Some(dp_native::le_value(a, b))
    }
}

/// `>`
pub struct Gt {}

impl Operator for Gt {
    ghost operator = { op.Gt };

    fn is(given: BinOp) -> bool {
        match given {
            BinOp::Gt => true,
            _ => false,
        }
    }

    #[inline(always)]
    fn apply(a: i64, b: i64) -> Option<i64> {
        Some(dp_native::gt_value(a, b))
    }
}

/// `>=`
pub struct Ge {}

impl Operator for Ge {
    ghost operator = { op.Ge };

    fn is(given: BinOp) -> bool {
        match given {
            BinOp::Ge => true,
            _ => false,
        }
    }

    #[inline(always)]
    fn apply(a: i64, b: i64) -> Option<i64> {
        Some(dp_native::ge_value(a, b))
    }
}

/// `==`
pub struct Eq {}

impl Operator for Eq {
    ghost operator = { op.Eq };

    fn is(given: BinOp) -> bool {
        match given {
            BinOp::Eq => true,
            _ => false,
        }
    }

    #[inline(always)]
    fn apply(a: i64, b: i64) -> Option<i64> {
        Some(dp_native::eq_value(a, b))
    }
}

/// `!=`
pub struct Ne {}

impl Operator for Ne {
    ghost operator = { op.Ne };

    fn is(given: BinOp) -> bool {
        match given {
            BinOp::Ne => true,
            _ => false,
        }
    }

    #[inline(always)]
    fn apply(a: i64, b: i64) -> Option<i64> {
        Some(dp_native::ne_value(a, b))
    }
}

/// `-`
pub struct Neg {}

impl Prefix for Neg {
    ghost operator = { prefix.Neg };

    fn is(given: UnOp) -> bool {
        match given {
            UnOp::Neg => true,
            _ => false,
        }
    }

    #[inline(always)]
    fn apply(a: i64) -> Option<i64> {
        dp_native::neg(a)
    }
}

/// `!`
pub struct Not {}

impl Prefix for Not {
    ghost operator = { prefix.Not };

    fn is(given: UnOp) -> bool {
        match given {
            UnOp::Not => true,
            _ => false,
        }
    }

    #[inline(always)]
    fn apply(a: i64) -> Option<i64> {
        Some(negated(a))
    }
}

/// `!a`
#[inline(always)]
#[tactic(auto, unfolding(dp_base::specs::Arithmetic::unary_result, dp_base::specs::Arithmetic::is_zero, dp_base::specs::Arithmetic::number_of))]
fn negated(a: i64) -> i64
    ensures { unary_result prefix.Not a ≡ Ok result }
{
    (a == 0) as i64
}
