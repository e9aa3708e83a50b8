//! Statements one after the other, and those that the machine runs.

ghost use Rattle.std.specs.Prelude.{◌≡◌, ◌≤◌, ◌<◌, ◌^◌, ◌++◌, [], List, ℕ, IsTrue, length};
ghost use Rattle.std.specs.Option.{MatchOption};
ghost use Rattle.dp_tree.specs.declared.Program.{Program};
ghost use Rattle.dp_tree.specs.declared.Stmt.{Stmt};
ghost use Rattle.dp_forms.specs.Codes.{Runs, Enters, OfThen, OfNothing, OfOther};

use super::codes::Code;
use super::home::site_of;
use super::loops::Apart;
use super::state::State;
use dp_base::Row;
use dp_tree::{Program, Stmt};
use std::marker::PhantomData;

/// The L statements of A, and then those of B.
pub struct Then<const L: usize, A, B> {
    of: PhantomData<(A, B)>,
}

impl<const N: usize, const L: usize, A: Code<N>, B: Code<N>> Code<N> for Then<L, A, B> {
    ghost is_of = { OfThen A.is_of B.is_of };

    fn is(program: &Program, homes: &[u32], size: u32, statements: &[Stmt]) -> bool {
        if L > statements.len() {
            return false;
        }
        let (front, back) = statements.split_at(L);
        A::is(program, homes, size, front) && B::is(program, homes, size, back)
    }

    #[inline(always)]
    fn run<W>(input: &[i64], memory: &mut [i64], out: &mut Row<i64>, state: State<N>) -> State<N>
        requires { state.at ≡ 0 }
        ensures less { result.fuel ≤ state.entry.fuel }
        ensures small { result.at < 2 ^ 32 }
        ensures runs { Runs (OfThen A.is_of B.is_of) input.now state.entry.fuel state.entry.registers memory.old out.old result.at result.fuel result.registers
            memory.new out.new }
    {
        let between = A::run::<W>(input, memory, out, state);
        if between.at == 0 {
            let to = B::run::<W>(input, memory, out, between);
            to
        } else {
            between
        }
    }

    fn enter(
        site: u32,
        input: &[i64],
        memory: &mut [i64],
        out: &mut Row<i64>,
        state: &State<N>,
    ) -> Option<State<N>>
        requires { state.now.at ≡ 0 }
        ensures { MatchOption result ((memory.new ≡ memory.old) × (out.new ≡ out.old)) (λ to. (to.at < 2 ^ 32)
            × Enters (OfThen A.is_of B.is_of) site input.now state.now.fuel state.now.registers memory.old out.old to.at to.fuel to.registers
            memory.new out.new) }
    {
        match A::enter(site, input, memory, out, state) {
            Some(between) => {
                if between.at == 0 {
                    let to = B::run::<Apart>(input, memory, out, between);
                    Some(to)
                } else {
                    Some(between)
                }
            }
            None => match B::enter(site, input, memory, out, state) {
                Some(to) => Some(to),
                None => None,
            },
        }
    }
}

/// No statement.
pub struct Nothing {}

impl<const N: usize> Code<N> for Nothing {
    ghost is_of = { OfNothing };

    fn is(_program: &Program, _homes: &[u32], _size: u32, statements: &[Stmt]) -> bool {
        match statements {
            [] => true,
            _ => false,
        }
    }

    #[inline(always)]
    fn run<W>(input: &[i64], memory: &mut [i64], out: &mut Row<i64>, state: State<N>) -> State<N>
        requires { state.at ≡ 0 }
        ensures less { result.fuel ≤ state.entry.fuel }
        ensures small { result.at < 2 ^ 32 }
        ensures runs { Runs (OfNothing) input.now state.entry.fuel state.entry.registers memory.old out.old result.at result.fuel result.registers
            memory.new out.new }
    {
        state
    }

    fn enter(
        site: u32,
        input: &[i64],
        memory: &mut [i64],
        out: &mut Row<i64>,
        state: &State<N>,
    ) -> Option<State<N>>
        requires { state.now.at ≡ 0 }
        ensures { MatchOption result ((memory.new ≡ memory.old) × (out.new ≡ out.old)) (λ to. (to.at < 2 ^ 32)
            × Enters (OfNothing) site input.now state.now.fuel state.now.registers memory.old out.old to.at to.fuel to.registers memory.new out.new) }
    {
        None
    }
}

/// Any one statement, which is left to the machine.
pub struct Other<const S: u32> {}

impl<const N: usize, const S: u32> Code<N> for Other<S> {
    ghost is_of = { OfOther S };

    fn is(_program: &Program, _homes: &[u32], _size: u32, statements: &[Stmt]) -> bool {
        match statements {
            [statement] => site_of(statement) == S && S != 0,
            _ => false,
        }
    }

    #[inline(always)]
    fn run<W>(input: &[i64], memory: &mut [i64], out: &mut Row<i64>, state: State<N>) -> State<N>
        requires { state.at ≡ 0 }
        ensures less { result.fuel ≤ state.entry.fuel }
        ensures small { result.at < 2 ^ 32 }
        ensures runs { Runs (OfOther S) input.now state.entry.fuel state.entry.registers memory.old out.old result.at result.fuel result.registers
            memory.new out.new }
    {
        state.left_at(S)
    }

    fn enter(
        site: u32,
        input: &[i64],
        memory: &mut [i64],
        out: &mut Row<i64>,
        state: &State<N>,
    ) -> Option<State<N>>
        requires { state.now.at ≡ 0 }
        ensures { MatchOption result ((memory.new ≡ memory.old) × (out.new ≡ out.old)) (λ to. (to.at < 2 ^ 32)
            × Enters (OfOther S) site input.now state.now.fuel state.now.registers memory.old out.old to.at to.fuel to.registers memory.new out.new) }
    {
        None
    }
}
