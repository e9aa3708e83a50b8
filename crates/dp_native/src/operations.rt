//! The operations of the language, each of which answers None where the language has a fault.
ghost use Rattle.std.specs.Prelude.{◌≡◌, ◌++◌, [], ◌∷◌, pos, not, length};
ghost use Rattle.std.specs.Option.{IfSome, MatchOption};
ghost use Rattle.dp_base.specs.Arithmetic.{binary_result, number_of, is_zero, unary_result};
ghost use Rattle.dp_native.specs.Element.{IsElement};

use dp_base::{BinOp, NoMemory, Row, UnOp};

/// `a + b`, if it fits.
#[inline(always)]
#[tactic(auto, unfolding(dp_base::specs::Arithmetic::binary_result))]
pub fn add(a: i64, b: i64) -> Option<i64>
    ensures { IfSome result (λ v. binary_result BinOp.Add a b ≡ Ok v) }
{
    a.checked_add(b)
}

/// `a - b`, if it fits.
#[inline(always)]
#[tactic(auto, unfolding(dp_base::specs::Arithmetic::binary_result))]
pub fn sub(a: i64, b: i64) -> Option<i64>
    ensures { IfSome result (λ v. binary_result BinOp.Sub a b ≡ Ok v) }
{
    a.checked_sub(b)
}

/// `a * b`, if it fits.
#[inline(always)]
#[tactic(auto, unfolding(dp_base::specs::Arithmetic::binary_result))]
pub fn mul(a: i64, b: i64) -> Option<i64>
    ensures { IfSome result (λ v. binary_result BinOp.Mul a b ≡ Ok v) }
{
    a.checked_mul(b)
}

/// `a / b`, if there is one.
#[inline(always)]
#[tactic(auto, unfolding(dp_base::specs::Arithmetic::binary_result, dp_base::specs::Arithmetic::is_zero, dp_base::specs::Arithmetic::number_of))]
pub fn div(a: i64, b: i64) -> Option<i64>
    ensures { IfSome result (λ v. binary_result BinOp.Div a b ≡ Ok v) }
{
    if b == 0 { None } else { a.checked_div(b) }
}

/// `a % b`, if there is one.
#[inline(always)]
#[tactic(auto, unfolding(dp_base::specs::Arithmetic::binary_result, dp_base::specs::Arithmetic::is_zero, dp_base::specs::Arithmetic::number_of))]
pub fn rem(a: i64, b: i64) -> Option<i64>
    ensures { IfSome result (λ v. binary_result BinOp.Rem a b ≡ Ok v) }
{
    if b == 0 { None } else { a.checked_rem(b) }
}

/// `-a`, if it fits.
#[inline(always)]
#[tactic(auto, unfolding(dp_base::specs::Arithmetic::unary_result))]
pub fn neg(a: i64) -> Option<i64>
    ensures { IfSome result (λ v. unary_result UnOp.Neg a ≡ Ok v) }
{
    a.checked_neg()
}

/// `a < b` as a number.
#[inline(always)]
#[tactic(auto, unfolding(dp_base::specs::Arithmetic::binary_result, dp_base::specs::Arithmetic::number_of))]
pub fn lt_value(a: i64, b: i64) -> i64
    ensures { binary_result BinOp.Lt a b ≡ Ok result }
{
    (a < b) as i64
}

/// `a <= b` as a number.
#[inline(always)]
#[tactic(auto, unfolding(dp_base::specs::Arithmetic::binary_result, dp_base::specs::Arithmetic::number_of))]
pub fn le_value(a: i64, b: i64) -> i64
    ensures { binary_result BinOp.Le a b ≡ Ok result }
{
    (a <= b) as i64
}

/// `a > b` as a number.
#[inline(always)]
#[tactic(auto, unfolding(dp_base::specs::Arithmetic::binary_result, dp_base::specs::Arithmetic::number_of))]
pub fn gt_value(a: i64, b: i64) -> i64
    ensures { binary_result BinOp.Gt a b ≡ Ok result }
{
    (a > b) as i64
}

/// `a >= b` as a number.
#[inline(always)]
#[tactic(auto, unfolding(dp_base::specs::Arithmetic::binary_result, dp_base::specs::Arithmetic::number_of))]
pub fn ge_value(a: i64, b: i64) -> i64
    ensures { binary_result BinOp.Ge a b ≡ Ok result }
{
    (a >= b) as i64
}

/// `a == b` as a number.
#[inline(always)]
#[tactic(auto, unfolding(dp_base::specs::Arithmetic::binary_result, dp_base::specs::Arithmetic::number_of))]
pub fn eq_value(a: i64, b: i64) -> i64
    ensures { binary_result BinOp.Eq a b ≡ Ok result }
{
    (a == b) as i64
}

/// `a != b` as a number.
#[inline(always)]
#[tactic(auto, unfolding(dp_base::specs::Arithmetic::binary_result, dp_base::specs::Arithmetic::number_of))]
pub fn ne_value(a: i64, b: i64) -> i64
    ensures { binary_result BinOp.Ne a b ≡ Ok result }
{
    (a != b) as i64
}

/// The number isn't 0.
#[inline(always)]
#[tactic(auto, unfolding(dp_base::specs::Arithmetic::is_zero))]
pub fn holds(a: i64) -> bool
    ensures { is_zero a ≡ not result }
{
    a != 0
}

/// The element at an index, if there is one.
#[inline(always)]
pub fn element(a: &[i64], i: i64) -> Option<i64>
    ensures { IfSome result (λ v. IsElement a.now i v) }
{
    if i < 0 {
        return None;
    }
    let place = i as usize;
    if place < a.len() {
        Some(a[place])
    } else {
        None
    }
}

/// How many words there are.
#[inline(always)]
pub fn length_of(input: &[i64]) -> i64
    ensures { result ≡ pos (length input.now) }
{
    input.len() as i64
}

/// Prints a number, if there is room.
#[inline(always)]
pub fn say(out: &mut Row<i64>, v: i64) -> Option<()>
    ensures { MatchOption result (out.new ≡ out.old) (λ _. out.new ≡ out.old ++ v ∷ []) }
{
    match out.push(v) {
        Ok(()) => Some(()),
        Err(NoMemory) => None,
    }
}
