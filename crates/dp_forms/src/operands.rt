//! The forms of expressions without an operator.

ghost use Rattle.std.specs.Prelude.{◌≡◌, IsTrue, length, pos};
ghost use Rattle.std.specs.Option.{IfSome};
ghost use Rattle.dp_forms.specs.Values.{HasEvaluated, OfNumber, OfLength, OfScalar, OfElement, OfWord};

use super::home::{is_array, is_register};
use super::memory::cell;
use super::values::Value;
use dp_native::{element, length_of};
use dp_tree::{Expr, Program};
use std::marker::PhantomData;

/// A number of the text.
pub struct Number<const V: i64> {}

impl<const N: usize, const V: i64> Value<N> for Number<V> {
    ghost is_of = { OfNumber V };

    fn is(_program: &Program, _homes: &[u32], _size: u32, expression: &Expr) -> bool {
        match expression {
            Expr::Number(value) => *value == V,
            _ => false,
        }
    }

    #[inline(always)]
    fn value<W>(_input: &[i64], _memory: &[i64], _registers: &[i64; N]) -> Option<i64> {
        Some(V)
    }
}

/// How many words the input has.
pub struct InputLen {}

impl<const N: usize> Value<N> for InputLen {
    ghost is_of = { OfLength };

    fn is(_program: &Program, _homes: &[u32], _size: u32, expression: &Expr) -> bool {
        match expression {
            Expr::InputLen => true,
            _ => false,
        }
    }

    #[inline(always)]
    fn value<W>(input: &[i64], _memory: &[i64], _registers: &[i64; N]) -> Option<i64> {
        Some(length_of(input))
    }
}

/// A scalar that is held in register K.
pub struct Scalar<const K: usize> {}

impl<const N: usize, const K: usize> Value<N> for Scalar<K> {
    ghost is_of = { OfScalar K };

    fn is(program: &Program, homes: &[u32], size: u32, expression: &Expr) -> bool {
        match expression {
            Expr::Scalar(variable) => is_register(program, homes, size, K, *variable),
            _ => false,
        }
    }

    #[inline(always)]
    fn value<W>(_input: &[i64], _memory: &[i64], registers: &[i64; N]) -> Option<i64> {
        if K < N { Some(registers[K]) } else { None }
    }
}

/// A word of the input.
pub struct Word<I> {
    of: PhantomData<I>,
}

impl<const N: usize, I: Value<N>> Value<N> for Word<I> {
    ghost is_of = { OfWord I.is_of };

    fn is(program: &Program, homes: &[u32], size: u32, expression: &Expr) -> bool {
        match expression {
            Expr::Input(index) => I::is(program, homes, size, index.get()),
            _ => false,
        }
    }

    #[inline(always)]
    fn value<W>(input: &[i64], memory: &[i64], registers: &[i64; N]) -> Option<i64> {
        let index = I::value::<W>(input, memory, registers)?;
        element(input, index)
    }
}

/// An element of the array that has C cells from cell F on.
pub struct Element<const F: u32, const C: u32, I> {
    of: PhantomData<I>,
}

impl<const N: usize, const F: u32, const C: u32, I: Value<N>> Value<N> for Element<F, C, I> {
    ghost is_of = { OfElement F C I.is_of };

    fn is(program: &Program, homes: &[u32], size: u32, expression: &Expr) -> bool {
        match expression {
            Expr::Element(variable, index) => {
                is_array(program, homes, size, F, C, *variable)
                    && I::is(program, homes, size, index.get())
            }
            _ => false,
        }
    }

    #[inline(always)]
    fn value<W>(input: &[i64], memory: &[i64], registers: &[i64; N]) -> Option<i64> {
        let index = I::value::<W>(input, memory, registers)?;
        cell(memory, F, C, index)
    }
}
