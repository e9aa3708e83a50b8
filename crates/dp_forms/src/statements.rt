//! The forms of statements without a condition.

ghost use Rattle.std.specs.Prelude.{◌≡◌, ◌≤◌, ◌<◌, ◌^◌};
ghost use Rattle.std.specs.Option.{MatchOption};
ghost use Rattle.dp_forms.specs.Codes.{Runs, Enters, OfSet, OfPut, OfSay, StoresElement};

use super::codes::Code;
use super::home::{is_array, is_register};
use super::loops::Apart;
use super::memory::put;
use super::state::State;
use super::values::Value;
use dp_base::Row;
use dp_native::say;
use dp_tree::{Program, Stmt};
use std::marker::PhantomData;

/// An assignment to the scalar in register K.
pub struct Set<const S: u32, const K: usize, V> {
    of: PhantomData<V>,
}

impl<const N: usize, const S: u32, const K: usize, V: Value<N>> Code<N> for Set<S, K, V> {
    ghost is_of = { OfSet S K V.is_of };

    fn is(program: &Program, homes: &[u32], size: u32, statements: &[Stmt]) -> bool {
        match statements {
            [Stmt::Assign { site, var, value }] => {
                site.0 == S
                    && S != 0
                    && is_register(program, homes, size, K, *var)
                    && V::is(program, homes, size, value)
            }
            _ => false,
        }
    }

    #[inline(always)]
    fn run<W>(input: &[i64], memory: &mut [i64], out: &mut Row<i64>, state: State<N>) -> State<N>
        requires { state.at ≡ 0 }
        ensures less { result.fuel ≤ state.entry.fuel }
        ensures small { result.at < 2 ^ 32 }
        ensures runs { Runs (OfSet S K V.is_of) input.now state.entry.fuel state.entry.registers memory.old out.old result.at result.fuel result.registers
            memory.new out.new }
    {
        let left = state.left_at(S);
        if state.fuel < 1 {
            return left;
        }
        if K >= N {
            return left;
        }
        match V::value::<W>(input, memory, &state.registers) {
            Some(value) => {
                let held = state.holding(K, value);
                held
            }
            None => left,
        }
    }

    fn enter(
        site: u32,
        input: &[i64],
        memory: &mut [i64],
        out: &mut Row<i64>,
        state: &State<N>,
    ) -> Option<State<N>>
        requires { state.now.at ≡ 0 }
        ensures { MatchOption result ((memory.new ≡ memory.old) × (out.new ≡ out.old)) (λ to. (to.at < 2 ^ 32)
            × Enters (OfSet S K V.is_of) site input.now state.now.fuel state.now.registers memory.old out.old to.at to.fuel to.registers memory.new out.new) }
    {
        if site == S {
            let to = Self::run::<Apart>(input, memory, out, *state);
            return Some(to);
        }
        None
    }
}

/// An assignment to an element of the array that has C cells from cell F on.
pub struct Put<const S: u32, const F: u32, const C: u32, I, V> {
    of: PhantomData<(I, V)>,
}

impl<const N: usize, const S: u32, const F: u32, const C: u32, I: Value<N>, V: Value<N>> Code<N>
    for Put<S, F, C, I, V> {
    ghost is_of = { OfPut S F C I.is_of V.is_of };

    fn is(program: &Program, homes: &[u32], size: u32, statements: &[Stmt]) -> bool {
        match statements {
            [
                Stmt::Store {
                    site,
                    var,
                    index,
                    value,
                },
            ] => {
                site.0 == S
                    && S != 0
                    && is_array(program, homes, size, F, C, *var)
                    && I::is(program, homes, size, index)
                    && V::is(program, homes, size, value)
            }
            _ => false,
        }
    }

    #[inline(always)]
    fn run<W>(input: &[i64], memory: &mut [i64], out: &mut Row<i64>, state: State<N>) -> State<N>
        requires { state.at ≡ 0 }
        ensures less { result.fuel ≤ state.entry.fuel }
        ensures small { result.at < 2 ^ 32 }
        ensures runs { Runs (OfPut S F C I.is_of V.is_of) input.now state.entry.fuel state.entry.registers memory.old out.old result.at result.fuel
            result.registers memory.new out.new }
    {
        let left = state.left_at(S);
        if state.fuel < 1 {
            return left;
        }
        let next = state.stepped();
        match stored::<N, F, C, I, V, W>(input, memory, &state.registers) {
            Some(()) => next,
            None => left,
        }
    }

    fn enter(
        site: u32,
        input: &[i64],
        memory: &mut [i64],
        out: &mut Row<i64>,
        state: &State<N>,
    ) -> Option<State<N>>
        requires { state.now.at ≡ 0 }
        ensures { MatchOption result ((memory.new ≡ memory.old) × (out.new ≡ out.old)) (λ to. (to.at < 2 ^ 32)
            × Enters (OfPut S F C I.is_of V.is_of) site input.now state.now.fuel state.now.registers memory.old out.old to.at to.fuel to.registers
            memory.new out.new) }
    {
        if site == S {
            let to = Self::run::<Apart>(input, memory, out, *state);
            return Some(to);
        }
        None
    }
}

/// Stores the value at the index, if neither faults and there is such an element.
#[inline(always)]
fn stored<const N: usize, const F: u32, const C: u32, I: Value<N>, V: Value<N>, W>(
    input: &[i64],
    memory: &mut [i64],
    registers: &[i64; N],
) -> Option<()>
    ensures { MatchOption result (memory.new ≡ memory.old) (λ _. StoresElement I.is_of V.is_of F C input.now registers.now memory.old memory.new) }
{
    let index = I::value::<W>(input, memory, registers)?;
    let value = V::value::<W>(input, memory, registers)?;
    put(memory, F, C, index, value)
}

/// A print.
pub struct Say<const S: u32, V> {
    of: PhantomData<V>,
}

impl<const N: usize, const S: u32, V: Value<N>> Code<N> for Say<S, V> {
    ghost is_of = { OfSay S V.is_of };

    fn is(program: &Program, homes: &[u32], size: u32, statements: &[Stmt]) -> bool {
        match statements {
            [Stmt::Print { site, value }] => {
                site.0 == S && S != 0 && V::is(program, homes, size, value)
            }
            _ => false,
        }
    }

    #[inline(always)]
    fn run<W>(input: &[i64], memory: &mut [i64], out: &mut Row<i64>, state: State<N>) -> State<N>
        requires { state.at ≡ 0 }
        ensures less { result.fuel ≤ state.entry.fuel }
        ensures small { result.at < 2 ^ 32 }
        ensures runs { Runs (OfSay S V.is_of) input.now state.entry.fuel state.entry.registers memory.old out.old result.at result.fuel result.registers
            memory.new out.new }
    {
        let left = state.left_at(S);
        if state.fuel < 1 {
            return left;
        }
        let next = state.stepped();
        match V::value::<W>(input, memory, &state.registers) {
            Some(value) => match say(out, value) {
                Some(()) => next,
                None => left,
            },
            None => left,
        }
    }

    fn enter(
        site: u32,
        input: &[i64],
        memory: &mut [i64],
        out: &mut Row<i64>,
        state: &State<N>,
    ) -> Option<State<N>>
        requires { state.now.at ≡ 0 }
        ensures { MatchOption result ((memory.new ≡ memory.old) × (out.new ≡ out.old)) (λ to. (to.at < 2 ^ 32)
            × Enters (OfSay S V.is_of) site input.now state.now.fuel state.now.registers memory.old out.old to.at to.fuel to.registers memory.new out.new) }
    {
        if site == S {
            let to = Self::run::<Apart>(input, memory, out, *state);
            return Some(to);
        }
        None
    }
}
