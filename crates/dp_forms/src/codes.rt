//! Code that executes statements.

ghost use Rattle.std.specs.Prelude.{◌≡◌, ◌≤◌, ◌<◌, ◌^◌, List, ℕ, IsTrue, length};
ghost use Rattle.std.specs.Option.{MatchOption};
ghost use Rattle.dp_tree.specs.declared.Program.{Program};
ghost use Rattle.dp_tree.specs.declared.Stmt.{Stmt};
ghost use Rattle.dp_forms.specs.Codes.{Runs, Enters};

use super::state::State;
use dp_base::Row;
use dp_tree::{Program, Stmt};

/// Some statements over N registers and the memory's cells.
pub trait Code<const N: usize> {
    /// Whether the code is that of these statements, where the registers have these home cells and the memory has this size.
    ghost is_of: { Program → List ℕ → ℕ → List Stmt → Type 0 };

    /// Answers true only where it is.
    fn is(program: &Program, homes: &[u32], size: u32, statements: &[Stmt]) -> bool
        ensures { IsTrue result → is_of program.now homes.now size statements.now };

    /// Executes the statements, as far as it goes. W says for whom the code is made, and nothing else.
    fn run<W>(input: &[i64], memory: &mut [i64], out: &mut Row<i64>, state: State<N>) -> State<N>
        requires { state.at ≡ 0 }
        ensures less { result.fuel ≤ state.entry.fuel }
        ensures small { result.at < 2 ^ 32 }
        ensures runs { Runs is_of input.now state.entry.fuel state.entry.registers memory.old out.old result.at result.fuel result.registers
            memory.new out.new };

    /// Goes on at a site, where the code can begin there.
    fn enter(
        site: u32,
        input: &[i64],
        memory: &mut [i64],
        out: &mut Row<i64>,
        state: &State<N>,
    ) -> Option<State<N>>
        requires { state.now.at ≡ 0 }
        ensures { MatchOption result ((memory.new ≡ memory.old) × (out.new ≡ out.old)) (λ to. (to.at < 2 ^ 32)
            × Enters is_of site input.now state.now.fuel state.now.registers memory.old out.old to.at to.fuel to.registers memory.new out.new) };
}
