//! A plain part of `main`: its statements up to the next region or the end.
ghost use Rattle.std.specs.Prelude.{◌≡◌, ◌<◌, ◌-◌, ◌^◌, ◌++◌, [], List, ℤ, ℕ, length, IfOk, OnErr, OnOk};
ghost use Rattle.dp_tree.specs.declared.Program.{Program as Tree};
ghost use Rattle.dp_tree.specs.Trace.{Run};
ghost use Rattle.dp_meaning.specs.declared.ends.Part.TheVariants.{Plain};
ghost use Rattle.dp_meaning.specs.MachineState.{next_part, rest_of_run};
ghost use Rattle.dp_edge.specs.Writing.{FaultsAfter};
ghost use Rattle.dp_crew.specs.Output.{Streams};
ghost use Rattle.dp_run.specs.Stretches.{Behind, FrontBefore, Leads, HasPassed, to_come};
ghost use Rattle.dp_run.specs.steps.Calls.{PartCall, PartSteps};

use dp_base::{End, NoMemory, Row};
use dp_commit::{Tally, Watch};
use dp_crew::{flush, flush_if_many};
use dp_edge::{Sink, WriteFail};
use dp_meaning::{Machine, NativeCode, Part, PartEnd};
use std::alloc::Global;

/// The greatest number of steps that the machine makes between two looks at the prints that wait, and before native code is
/// asked again that made none.
const TURNS: u32 = 65536;

/// Runs the plain part that comes next, if one does, and answers the run's end if that comes in it.
pub fn run_plain<'p, N: NativeCode, K: Sink, W: Watch>(
    alloc: Global,
    native: &N,
    machine: &mut Machine<'p>,
    sink: &mut K,
    tally: &mut Tally<W>,
) -> Result<Option<End>, WriteFail>
    requires sink { K.faults sink.old < 2 ^ 64 - 1 }
    ensures faults { FaultsAfter result (K.faults sink.old) (K.faults sink.new) }
    ensures tally { tally.new ≡ tally.old }
    ensures ok { IfOk result (λ end. (p : Tree) (input : List ℤ) (fuel : ℕ) (run : Run) (n : ℕ) → Behind p input fuel run n machine.old →
        Leads p input fuel run n machine.new end) }
    ensures plain { OnErr result (next_part machine.old ≡ Plain) }
    ensures streams { Streams result (to_come machine.old) (λ _. to_come machine.new) (K.written sink.old) (K.written sink.new) }
    ensures before { OnErr result (FrontBefore 0 [] machine.old (K.written sink.old) (K.written sink.new)) }
{
    let Part::Plain = machine.part() else {
        return Ok(None);
    };
    let mut waiting = Row::new(alloc);
    let end = finish_plain(alloc, native, machine, &mut waiting, sink, tally)?;
    flush(alloc, &mut waiting, sink)?;
    Ok(end)
}

/// Runs it to its end, or to the run's.
fn finish_plain<'p, N: NativeCode, K: Sink, W: Watch>(
    alloc: Global,
    native: &N,
    machine: &mut Machine<'p>,
    waiting: &mut Row<i64>,
    sink: &mut K,
    tally: &mut Tally<W>,
) -> Result<Option<End>, WriteFail>
    requires sink { K.faults sink.old < 2 ^ 64 - 1 }
    requires part { next_part machine.old ≡ Plain }
    ensures faults { FaultsAfter result (K.faults sink.old) (K.faults sink.new) }
    ensures tally { tally.new ≡ tally.old }
    ensures ok { IfOk result (λ end. (p : Tree) (input : List ℤ) (fuel : ℕ) (run : Run) (n : ℕ) → Behind p input fuel run n machine.old →
        Leads p input fuel run n machine.new end) }
    ensures streams { Streams result (waiting.old ++ to_come machine.old) (λ _. waiting.new ++ to_come machine.new) (K.written sink.old) (K.written sink.new) }
    ensures before { OnErr result (FrontBefore 0 waiting.old machine.old (K.written sink.old) (K.written sink.new)) }
    ensures passes { OnOk result (HasPassed (rest_of_run machine.old) (rest_of_run machine.new) 0) }
{
    'calls: loop {
        match go_on(alloc, native, machine, waiting, sink, tally)? {
            PartEnd::Going => {}
            PartEnd::Done => return Ok(None),
            PartEnd::Fault(fault) => return Ok(Some(End::Fault(fault))),
            PartEnd::Fuel => return Ok(Some(End::Fuel)),
        }
    }
}

/// Makes some steps of it. Then prints are written where many wait.
fn go_on<'p, N: NativeCode, K: Sink, W: Watch>(
    alloc: Global,
    native: &N,
    machine: &mut Machine<'p>,
    waiting: &mut Row<i64>,
    sink: &mut K,
    tally: &mut Tally<W>,
) -> Result<PartEnd, WriteFail>
    requires sink { K.faults sink.old < 2 ^ 64 - 1 }
    requires part { next_part machine.old ≡ Plain }
    ensures faults { FaultsAfter result (K.faults sink.old) (K.faults sink.new) }
    ensures tally { tally.new ≡ tally.old }
    ensures ok { IfOk result (λ end. PartSteps machine.old machine.new end) }
    ensures few { OnOk result (length waiting.new < 4096) }
    ensures streams { Streams result (waiting.old ++ to_come machine.old) (λ _. waiting.new ++ to_come machine.new) (K.written sink.old) (K.written sink.new) }
    ensures before { OnErr result (FrontBefore 0 waiting.old machine.old (K.written sink.old) (K.written sink.new)) }
{
    let end = make_steps(alloc, native, machine, waiting)?;
    tally.made(machine.steps());
    flush_if_many(alloc, waiting, sink)?;
    Ok(end)
}

/// Makes some steps of it: in native code, or in the machine where native code makes none.
fn make_steps<N: NativeCode>(
    alloc: Global,
    native: &N,
    machine: &mut Machine<'_>,
    waiting: &mut Row<i64>,
) -> Result<PartEnd, NoMemory>
    requires { next_part machine.old ≡ Plain }
    ensures { IfOk result (λ end. PartCall machine.old machine.new waiting.old waiting.new end) }
{
    let before = machine.steps();
    native.go_on(alloc, machine, waiting);
    if machine.part() != Part::Plain {
        return Ok(PartEnd::Done);
    }
    let steps = machine.steps();
    if before < steps && steps < machine.fuel() {
        return Ok(PartEnd::Going);
    }
    machine.run_part(TURNS, waiting)
}
