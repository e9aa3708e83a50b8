//! Native code of a program, which goes on with the sequential machine's plain parts.
ghost use Rattle.std.specs.Prelude.{◌≡◌};
ghost use Rattle.dp_meaning.specs.MachineState.{next_part};
ghost use Rattle.dp_meaning.specs.PartRun.{PartMoved};

use crate::ends::Part;
use crate::machine::Machine;
use dp_base::Row;
use std::alloc::Global;

/// What goes on with a plain part in the machine's place.
///
/// It stops where it likes: before a fault, before the fuel is spent, where many prints wait, where memory is wanting. The
/// machine then goes on from there.
pub trait NativeCode {
    /// Makes steps of the plain part that comes next, as many as it likes, and appends what they print.
    fn go_on(&self, alloc: Global, machine: &mut Machine<'_>, out: &mut Row<i64>)
        requires { next_part machine.old ≡ Part.Plain }
        ensures { PartMoved machine.old machine.new out.old out.new };
}

/// No native code: the machine makes all steps.
#[derive(Clone, Copy)]
pub struct NoNativeCode;

impl NativeCode for NoNativeCode {
    #[tactic(auto, using(crate::proofs::PartLemmas::part_unmoved))]
    fn go_on(&self, _alloc: Global, _machine: &mut Machine<'_>, _out: &mut Row<i64>) {}
}
