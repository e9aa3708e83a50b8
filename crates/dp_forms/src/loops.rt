//! The forms of loops. A loop that no other one stands in has a function of its own, and the code of what stands inside is
//! made for that function alone: the compiler lays code of any size into the one place that calls it, and there a state is
//! held in registers; code with a second caller becomes a function that takes and gives its state through memory.

ghost use Rattle.std.specs.Prelude.{◌≡◌, ◌≤◌, ◌<◌, ◌^◌, IsTrue, length};
ghost use Rattle.std.specs.Option.{MatchOption};
ghost use Rattle.dp_forms.specs.Codes.{Runs, Enters, OfWhile};

use super::codes::Code;
use super::state::State;
use super::values::Value;
use dp_base::Row;
use dp_native::holds;
use dp_tree::{Program, Stmt};
use std::marker::PhantomData;

/// For whom code is made that stands in no loop's function.
pub struct Apart {}

/// For whom code is made that stands in the function of the loop at site S.
pub struct Within<const S: u32> {}

/// A loop over A inside another one. A turn is begun only where more than M steps are left, and, where P isn't 0, fewer than
/// P prints wait.
pub struct While<const S: u32, const M: u64, const P: usize, C, A> {
    of: PhantomData<(C, A)>,
}

impl<const N: usize, const S: u32, const M: u64, const P: usize, C: Value<N>, A: Code<N>> Code<N>
    for While<S, M, P, C, A> {
    ghost is_of = { OfWhile S C.is_of A.is_of };

    fn is(program: &Program, homes: &[u32], size: u32, statements: &[Stmt]) -> bool {
        is_loop::<N, S, C, A>(program, homes, size, statements)
    }

    #[inline(always)]
    fn run<W>(input: &[i64], memory: &mut [i64], out: &mut Row<i64>, state: State<N>) -> State<N>
        requires { state.at ≡ 0 }
        ensures less { result.fuel ≤ state.entry.fuel }
        ensures small { result.at < 2 ^ 32 }
        ensures runs { Runs (OfWhile S C.is_of A.is_of) input.now state.entry.fuel state.entry.registers memory.old out.old result.at result.fuel
            result.registers memory.new out.new }
    {
        turns::<N, S, M, P, C, A, W>(input, memory, out, state)
    }

    fn enter(
        site: u32,
        input: &[i64],
        memory: &mut [i64],
        out: &mut Row<i64>,
        state: &State<N>,
    ) -> Option<State<N>>
        requires { state.now.at ≡ 0 }
        ensures { MatchOption result ((memory.new ≡ memory.old) × (out.new ≡ out.old)) (λ to. (to.at < 2 ^ 32)
            × Enters (OfWhile S C.is_of A.is_of) site input.now state.now.fuel state.now.registers memory.old out.old to.at to.fuel to.registers
            memory.new out.new) }
    {
        entered::<N, S, M, P, 0, C, A>(site, input, memory, out, state)
    }
}

/// The same of a loop that stands inside no other one. It is begun only where the memory has L cells at least, so that the
/// compiler knows which arrays are in it.
pub struct Outermost<const S: u32, const M: u64, const P: usize, const L: usize, C, A> {
    of: PhantomData<(C, A)>,
}

impl<
    const N: usize,
    const S: u32,
    const M: u64,
    const P: usize,
    const L: usize,
    C: Value<N>,
    A: Code<N>,
> Code<N> for Outermost<S, M, P, L, C, A> {
    ghost is_of = { OfWhile S C.is_of A.is_of };

    fn is(program: &Program, homes: &[u32], size: u32, statements: &[Stmt]) -> bool {
        is_loop::<N, S, C, A>(program, homes, size, statements)
    }

    #[inline(always)]
    fn run<W>(input: &[i64], memory: &mut [i64], out: &mut Row<i64>, state: State<N>) -> State<N>
        requires { state.at ≡ 0 }
        ensures less { result.fuel ≤ state.entry.fuel }
        ensures small { result.at < 2 ^ 32 }
        ensures runs { Runs (OfWhile S C.is_of A.is_of) input.now state.entry.fuel state.entry.registers memory.old out.old result.at result.fuel
            result.registers memory.new out.new }
    {
        turns_apart::<N, S, M, P, L, C, A>(input, memory, out, &state)
    }

    fn enter(
        site: u32,
        input: &[i64],
        memory: &mut [i64],
        out: &mut Row<i64>,
        state: &State<N>,
    ) -> Option<State<N>>
        requires { state.now.at ≡ 0 }
        ensures { MatchOption result ((memory.new ≡ memory.old) × (out.new ≡ out.old)) (λ to. (to.at < 2 ^ 32)
            × Enters (OfWhile S C.is_of A.is_of) site input.now state.now.fuel state.now.registers memory.old out.old to.at to.fuel to.registers
            memory.new out.new) }
    {
        entered::<N, S, M, P, L, C, A>(site, input, memory, out, state)
    }
}

/// Whether the statements are the loop over A.
fn is_loop<const N: usize, const S: u32, C: Value<N>, A: Code<N>>(
    program: &Program,
    homes: &[u32],
    size: u32,
    statements: &[Stmt],
) -> bool
    ensures { IsTrue result → OfWhile S C.is_of A.is_of program.now homes.now size statements.now }
{
    match statements {
        [Stmt::While { site, cond, body }] => {
            site.0 == S
                && S != 0
                && C::is(program, homes, size, cond)
                && A::is(program, homes, size, body.as_slice())
        }
        _ => false,
    }
}

/// The loop's turns.
#[inline(always)]
fn turns<const N: usize, const S: u32, const M: u64, const P: usize, C: Value<N>, A: Code<N>, W>(
    input: &[i64],
    memory: &mut [i64],
    out: &mut Row<i64>,
    state: State<N>,
) -> State<N>
    requires { state.at ≡ 0 }
    ensures less { result.fuel ≤ state.entry.fuel }
    ensures small { result.at < 2 ^ 32 }
    ensures runs { Runs (OfWhile S C.is_of A.is_of) input.now state.entry.fuel state.entry.registers memory.old out.old result.at result.fuel result.registers
        memory.new out.new }
{
    let mut state = state;
    'turns: while state.fuel > M {
        if is_full(out, P) {
            break;
        }
        match C::value::<W>(input, memory, &state.registers) {
            Some(test) => {
                let yes = holds(test);
                let next = state.stepped();
                if yes {
                    state = A::run::<W>(input, memory, out, next);
                    if state.at != 0 {
                        return state;
                    }
                } else {
                    return next;
                }
            }
            None => break,
        }
    }
    let left = state.left_at(S);
    left
}

/// .. in the loop's own function, where the memory has L cells.
#[inline(never)]
fn turns_apart<
    const N: usize,
    const S: u32,
    const M: u64,
    const P: usize,
    const L: usize,
    C: Value<N>,
    A: Code<N>,
>(input: &[i64], memory: &mut [i64], out: &mut Row<i64>, state: &State<N>) -> State<N>
    requires { state.now.at ≡ 0 }
    ensures less { result.fuel ≤ state.now.fuel }
    ensures small { result.at < 2 ^ 32 }
    ensures runs { Runs (OfWhile S C.is_of A.is_of) input.now state.now.fuel state.now.registers memory.old out.old result.at result.fuel result.registers
        memory.new out.new }
{
    if memory.len() < L {
        let left = state.left_at(S);
        return left;
    }
    turns::<N, S, M, P, C, A, Within<S>>(input, memory, out, *state)
}

/// Goes on at the loop's head or inside, and then with its further turns.
fn entered<
    const N: usize,
    const S: u32,
    const M: u64,
    const P: usize,
    const L: usize,
    C: Value<N>,
    A: Code<N>,
>(
    site: u32,
    input: &[i64],
    memory: &mut [i64],
    out: &mut Row<i64>,
    state: &State<N>,
) -> Option<State<N>>
    requires { state.now.at ≡ 0 }
    ensures { MatchOption result ((memory.new ≡ memory.old) × (out.new ≡ out.old)) (λ to. (to.at < 2 ^ 32)
        × Enters (OfWhile S C.is_of A.is_of) site input.now state.now.fuel state.now.registers memory.old out.old to.at to.fuel to.registers
        memory.new out.new) }
{
    if site == S {
        let to = turns_apart::<N, S, M, P, L, C, A>(input, memory, out, state);
        return Some(to);
    }
    match A::enter(site, input, memory, out, state) {
        Some(inside) => {
            if inside.at != 0 {
                return Some(inside);
            }
            let behind = turns_apart::<N, S, M, P, L, C, A>(input, memory, out, &inside);
            Some(behind)
        }
        None => None,
    }
}

/// Whether so many prints wait, where that isn't 0.
#[inline(always)]
fn is_full(out: &Row<i64>, most: usize) -> bool {
    most > 0 && out.len() >= most
}
