//! Code that gives the value of an expression.

ghost use Rattle.std.specs.Prelude.{List, ℕ, IsTrue, length};
ghost use Rattle.std.specs.Option.{IfSome};
ghost use Rattle.dp_tree.specs.declared.Program.{Program};
ghost use Rattle.dp_tree.specs.declared.Expr.{Expr};
ghost use Rattle.dp_forms.specs.Values.{HasEvaluated};

use dp_tree::{Expr, Program};

/// An expression over N registers and the memory's cells.
pub trait Value<const N: usize> {
    /// Whether the code is that of this expression, where the registers have these home cells and the memory has this size.
    ghost is_of: { Program → List ℕ → ℕ → Expr → Type 0 };

    /// Answers true only where it is.
    fn is(program: &Program, homes: &[u32], size: u32, expression: &Expr) -> bool
        ensures { IsTrue result → is_of program.now homes.now size expression.now };

    /// The expression's value; None stands for a fault. W says for whom the code is made, and nothing else.
    fn value<W>(input: &[i64], memory: &[i64], registers: &[i64; N]) -> Option<i64>
        ensures { IfSome result (λ v. HasEvaluated is_of input.now memory.now registers.now v) };
}
