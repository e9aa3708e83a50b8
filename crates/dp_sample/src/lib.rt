//! Native code of one program.
#![tactic(auto)]

ghost use Rattle.std.specs.Prelude.{◌≡◌, ◌≤◌, ◌<◌, ◌^◌};
ghost use Rattle.std.specs.Option.{MatchOption};
ghost use Rattle.dp_forms.specs.Codes.{Runs, Enters};

use dp_base::Row;
use dp_forms::{
    Add, And, Binary, Code, Composed, Element, Gt, If, InputLen, Lt, Mul, Number, Outermost, Put,
    Rem, Say, Scalar, Set, State, Sub, Then, Value, Word,
};
use dp_native::Native;
use dp_tree::{Expr, Program, Stmt};
use std::marker::PhantomData;

type Expression1Form = Binary<
    Add,
    Binary<
        Sub,
        Binary<
            Add,
            Binary<Mul, Binary<Rem, Scalar<1>, Number<3>>, Number<5>>,
            Binary<Mul, Binary<Rem, Scalar<1>, Number<5>>, Number<3>>,
        >,
        Binary<Mul, Binary<Rem, Scalar<1>, Number<7>>, Number<2>>,
    >,
    Binary<Mul, Binary<Rem, Scalar<1>, Number<11>>, Binary<Rem, Scalar<1>, Number<13>>>,
>;

/// A part of an expression's code.
pub struct Expression1 {}

impl Value<2> for Expression1 {
    ghost is_of = { ⟦<Expression1Form as Value<2>>⟧.is_of };

    fn is(program: &Program, homes: &[u32], size: u32, expression: &Expr) -> bool {
        <Expression1Form as Value<2>>::is(program, homes, size, expression)
    }

    #[inline(always)]
    fn value<W>(input: &[i64], memory: &[i64], registers: &[i64; 2]) -> Option<i64> {
        <Expression1Form as Value<2>>::value::<W>(input, memory, registers)
    }
}

type Part1Form = If<
    3,
    And<
        Binary<Gt, Word<Scalar<1>>, Number<0>>,
        Binary<Lt, Element<0, 8, Binary<Rem, Scalar<1>, Number<8>>>, Number<9>>,
    >,
    Then<
        1,
        Put<
            4,
            0,
            8,
            Binary<Rem, Scalar<1>, Number<8>>,
            Binary<Add, Element<0, 8, Binary<Rem, Scalar<1>, Number<8>>>, Word<Scalar<1>>>,
        >,
        Say<5, Binary<Mul, Scalar<0>, Number<3>>>,
    >,
    Set<6, 0, Expression1>,
>;

/// A part of the program's code.
pub struct Part1 {}

impl Code<2> for Part1 {
    ghost is_of = { ⟦<Part1Form as Code<2>>⟧.is_of };

    fn is(program: &Program, homes: &[u32], size: u32, statements: &[Stmt]) -> bool {
        <Part1Form as Code<2>>::is(program, homes, size, statements)
    }

    #[inline(always)]
    fn run<W>(input: &[i64], memory: &mut [i64], out: &mut Row<i64>, state: State<2>) -> State<2>
        requires { state.at ≡ 0 }
        ensures less { result.fuel ≤ state.fuel }
        ensures small { result.at < 2 ^ 32 }
        ensures runs { Runs ⟦<Part1Form as Code<2>>⟧.is_of input.now state.fuel state.registers memory.old out.old result.at result.fuel result.registers
            memory.new out.new }
    {
        <Part1Form as Code<2>>::run::<W>(input, memory, out, state)
    }

    fn enter(
        site: u32,
        input: &[i64],
        memory: &mut [i64],
        out: &mut Row<i64>,
        state: &State<2>,
    ) -> Option<State<2>>
        requires { state.now.at ≡ 0 }
        ensures { MatchOption result ((memory.new ≡ memory.old) × (out.new ≡ out.old)) (λ to. (to.at < 2 ^ 32)
            × Enters ⟦<Part1Form as Code<2>>⟧.is_of site input.now state.now.fuel state.now.registers memory.old out.old to.at to.fuel to.registers
            memory.new out.new) }
    {
        <Part1Form as Code<2>>::enter(site, input, memory, out, state)
    }
}

/// The program's code, with its registers' home cells.
pub fn code() -> Native<
    Composed<
        2,
        Then<
            1,
            Set<1, 1, Number<0>>,
            Outermost<
                2,
                4,
                4096,
                10,
                Binary<Lt, Scalar<1>, InputLen>,
                Then<1, Part1, Set<7, 1, Binary<Add, Scalar<1>, Number<1>>>>,
            >,
        >,
    >,
> {
    Native::new(Composed {
        homes: [8, 9],
        size: 10,
        sites: 7,
        of: PhantomData,
    })
}
