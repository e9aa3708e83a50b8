//! The forms that have a condition.

ghost use Rattle.std.specs.Prelude.{◌≡◌, ◌≤◌, ◌<◌, ◌^◌, IsTrue, length, not};
ghost use Rattle.std.specs.Option.{IfSome, MatchOption};
ghost use Rattle.dp_base.specs.Arithmetic.{number_of, is_zero};
ghost use Rattle.dp_forms.specs.Values.{HasEvaluated, OfAnd, OfOr};
ghost use Rattle.dp_forms.specs.Codes.{Runs, Enters, OfIf};

use super::codes::Code;
use super::loops::Apart;
use super::state::State;
use super::values::Value;
use dp_base::Row;
use dp_native::holds;
use dp_tree::{Expr, Program, Stmt};
use std::marker::PhantomData;

/// `&&`: B isn't evaluated where A is 0.
pub struct And<A, B> {
    of: PhantomData<(A, B)>,
}

impl<const N: usize, A: Value<N>, B: Value<N>> Value<N> for And<A, B> {
    ghost is_of = { OfAnd A.is_of B.is_of };

    fn is(program: &Program, homes: &[u32], size: u32, expression: &Expr) -> bool {
        match expression {
            Expr::And(left, right) => {
                A::is(program, homes, size, left.get()) && B::is(program, homes, size, right.get())
            }
            _ => false,
        }
    }

    #[inline(always)]
    fn value<W>(input: &[i64], memory: &[i64], registers: &[i64; N]) -> Option<i64> {
        let a = A::value::<W>(input, memory, registers)?;
        let holds_first = holds(a);
        if !holds_first {
            return Some(0);
        }
        let b = B::value::<W>(input, memory, registers)?;
        Some(truth(b))
    }
}

/// `||`: B isn't evaluated where A isn't 0.
pub struct Or<A, B> {
    of: PhantomData<(A, B)>,
}

impl<const N: usize, A: Value<N>, B: Value<N>> Value<N> for Or<A, B> {
    ghost is_of = { OfOr A.is_of B.is_of };

    fn is(program: &Program, homes: &[u32], size: u32, expression: &Expr) -> bool {
        match expression {
            Expr::Or(left, right) => {
                A::is(program, homes, size, left.get()) && B::is(program, homes, size, right.get())
            }
            _ => false,
        }
    }

    #[inline(always)]
    fn value<W>(input: &[i64], memory: &[i64], registers: &[i64; N]) -> Option<i64> {
        let a = A::value::<W>(input, memory, registers)?;
        let holds_first = holds(a);
        if holds_first {
            return Some(1);
        }
        let b = B::value::<W>(input, memory, registers)?;
        Some(truth(b))
    }
}

/// The choice between A and B.
pub struct If<const S: u32, C, A, B> {
    of: PhantomData<(C, A, B)>,
}

impl<const N: usize, const S: u32, C: Value<N>, A: Code<N>, B: Code<N>> Code<N> for If<S, C, A, B> {
    ghost is_of = { OfIf S C.is_of A.is_of B.is_of };

    fn is(program: &Program, homes: &[u32], size: u32, statements: &[Stmt]) -> bool {
        match statements {
            [
                Stmt::If {
                    site,
                    cond,
                    then_part,
                    else_part,
                },
            ] => {
                site.0 == S
                    && S != 0
                    && C::is(program, homes, size, cond)
                    && A::is(program, homes, size, then_part.as_slice())
                    && B::is(program, homes, size, else_part.as_slice())
            }
            _ => false,
        }
    }

    #[inline(always)]
    fn run<W>(input: &[i64], memory: &mut [i64], out: &mut Row<i64>, state: State<N>) -> State<N>
        requires { state.at ≡ 0 }
        ensures less { result.fuel ≤ state.entry.fuel }
        ensures small { result.at < 2 ^ 32 }
        ensures runs { Runs (OfIf S C.is_of A.is_of B.is_of) input.now state.entry.fuel state.entry.registers memory.old out.old result.at result.fuel
            result.registers memory.new out.new }
    {
        let left = state.left_at(S);
        if state.fuel < 1 {
            return left;
        }
        let next = state.stepped();
        match C::value::<W>(input, memory, &state.registers) {
            Some(test) => {
                let yes = holds(test);
                if yes {
                    let then_to = A::run::<W>(input, memory, out, next);
                    then_to
                } else {
                    let else_to = B::run::<W>(input, memory, out, next);
                    else_to
                }
            }
            None => left,
        }
    }

    fn enter(
        site: u32,
        input: &[i64],
        memory: &mut [i64],
        out: &mut Row<i64>,
        state: &State<N>,
    ) -> Option<State<N>>
        requires { state.now.at ≡ 0 }
        ensures { MatchOption result ((memory.new ≡ memory.old) × (out.new ≡ out.old)) (λ to. (to.at < 2 ^ 32)
            × Enters (OfIf S C.is_of A.is_of B.is_of) site input.now state.now.fuel state.now.registers memory.old out.old to.at to.fuel to.registers
            memory.new out.new) }
    {
        if site == S {
            let to = Self::run::<Apart>(input, memory, out, *state);
            return Some(to);
        }
        match A::enter(site, input, memory, out, state) {
            Some(to) => Some(to),
            None => match B::enter(site, input, memory, out, state) {
                Some(to) => Some(to),
                None => None,
            },
        }
    }
}

/// 1 for a value that isn't 0, and 0 for 0.
#[inline(always)]
#[tactic(auto, unfolding(dp_base::specs::Arithmetic::is_zero, dp_base::specs::Arithmetic::number_of))]
fn truth(value: i64) -> i64
    ensures { result ≡ number_of (not (is_zero value)) }
{
    (value != 0) as i64
}
