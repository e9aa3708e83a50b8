//! Native code of one program.
ghost use Rattle.std.specs.Prelude.{◌≡◌, IsTrue};
ghost use Rattle.dp_tree.specs.Inlined.{IsInlined};
ghost use Rattle.dp_tree.specs.Step.{standing};
ghost use Rattle.dp_tree.specs.declared.Program.{Program as Tree};
ghost use Rattle.dp_meaning.specs.declared.ends.Part.TheVariants.{Plain};
ghost use Rattle.dp_meaning.specs.MachineState.{part_of};
ghost use Rattle.dp_meaning.specs.Places.{config_at, rest_at};
ghost use Rattle.dp_native.specs.Reaches.{Reaches};

use dp_base::Row;
use dp_tree::Program;

/// What is generated for a program.
pub trait NativeProgram {
    /// Of which programs it is the native code.
    ghost suits: { Self → Tree → Type 0 };

    /// Whether it is the native code of this program.
    fn is(&self, program: &Program) -> bool
        ensures { IsTrue result → suits self.now program.now };

    /// Makes steps of a plain part from a place on, as many as it likes, and appends what they print. Answers the place that
    /// is next then, and the fuel that is left: this place and all of the fuel where it doesn't know the place.
    fn run(
        &self,
        place: u32,
        input: &[i64],
        cells: &mut [i64],
        fuel: u64,
        out: &mut Row<i64>,
    ) -> (u32, u64)
        ensures { (p : Tree) → IsInlined p → suits self.now p → part_of (rest_at p place) ≡ Plain →
            Reaches p input.now fuel out.old (config_at p (record { place = place; cells = cells.old })) result.1 out.new
            (standing p (rest_at p result.0) cells.new) };
}
