//! Native code of a program in the place of its machine.
ghost use Rattle.std.specs.Prelude.{◌≡◌};
ghost use Rattle.dp_tree.specs.Inlined.{IsInlined};
ghost use Rattle.dp_meaning.specs.declared.ends.Part.TheVariants.{Plain};
ghost use Rattle.dp_meaning.specs.MachineState.{next_part};
ghost use Rattle.dp_meaning.specs.PartRun.{PartMoved};

use crate::program::NativeProgram;
use dp_base::{Cells, Row};
use dp_meaning::{Machine, NativeCode};
use std::alloc::Global;

/// A program's native code, which goes on with the plain parts of its runs. Other programs are left to the machine.
#[derive(Drop)]
pub struct Native<P> {
    program: P,
}

impl<P: NativeProgram> Native<P> {
    pub fn new(program: P) -> Native<P>
        ensures { result ≡ record { program = program } }
    {
        Native { program }
    }
}

impl<P: NativeProgram> NativeCode for Native<P> {
    #[tactic(auto, using(dp_meaning::proofs::PartLemmas::part_unmoved))]
    fn go_on(&self, alloc: Global, machine: &mut Machine<'_>, out: &mut Row<i64>) {
        if self.program.is(machine.program()) {
            leap(&self.program, alloc, machine, out);
        }
    }
}

/// Goes on in native code from where the machine stands. Where memory is wanting for that, nothing is done.
fn leap<P: NativeProgram>(program: &P, alloc: Global, machine: &mut Machine<'_>, out: &mut Row<i64>)
    requires part { next_part machine.old ≡ Plain }
    requires inlined { IsInlined machine.old.program }
    requires suits { P.suits program.now machine.old.program }
    ensures { PartMoved machine.old machine.new out.old out.new }
{
    let Ok(mut cells) = Vec::from_slice(alloc, machine.cells().as_slice()) else {
        return;
    };
    let fuel = machine.fuel() - machine.steps();
    let input = machine.input();
    let (place, left) = program.run(machine.place(), input, cells.as_mut_slice(), fuel, out);
    machine.stand(place, Cells::from_values(alloc, cells), fuel - left);
}
