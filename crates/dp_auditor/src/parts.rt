//! The parts of `main`, one after the other.
ghost use Rattle.std.specs.Prelude.{◌≡◌, ◌≤◌, List, IfOk};
ghost use Rattle.dp_tree.specs.declared.Program.{Program as Tree};
ghost use Rattle.dp_plan.specs.Each.{Each};
ghost use Rattle.dp_plan.specs.GivenPlans.{IsPlan};
ghost use Rattle.dp_plan.specs.declared.Plan.{Plan as AnyPlan};
ghost use Rattle.dp_meaning.specs.MachineState.{rest_of_run};
ghost use Rattle.dp_auditor.specs.Regions.{Ascending, PlainLeads, Standing};
ghost use Rattle.dp_auditor.specs.Walking.{AllCompared};

use crate::comparing::Comparing;
use crate::iterations::{After, compare_region};
use dp_base::{End, NoMemory, Row};
use dp_meaning::{Machine, Part, PartEnd};
use dp_plan::Plan;
use dp_tree::Program;
use std::alloc::Global;

/// The greatest number of steps whose prints are kept before they are let go.
const TURNS: u32 = 65536;

/// What comes after the lines of all regions.
#[derive(Clone, Copy)]
pub(crate) enum Walked {
    /// The run has ended so.
    Whole(End),
    /// A line differs: the first that does.
    Differs(u32),
}

/// Makes the steps of the plain part that comes next, if one does, and answers the run's end if that comes in it.
fn pass_plain(machine: &mut Machine<'_>, out: &mut Row<i64>) -> Result<Option<End>, NoMemory>
    ensures { IfOk result (λ end. (p : Tree) (plans : List AnyPlan) → Standing p plans machine.old → PlainLeads p plans machine.old machine.new end) }
{
    let Part::Plain = machine.part() else {
        return Ok(None);
    };
    'calls: loop {
        out.clear();
        match machine.run_part(TURNS, out)? {
            PartEnd::Going => {}
            PartEnd::Done => return Ok(None),
            PartEnd::Fault(fault) => return Ok(Some(End::Fault(fault))),
            PartEnd::Fuel => return Ok(Some(End::Fuel)),
        }
    }
}

/// Compares the lines of all regions that are left, one plan after the other, up to the run's end.
pub(crate) fn compare_parts<'p>(
    alloc: Global,
    program: &'p Program,
    plans: &'p [Plan],
    input: &'p [i64],
    machine: &mut Machine<'p>,
    compared: &mut Comparing<'_>,
) -> Result<Walked, NoMemory>
    requires plans { Ascending plans.now }
    requires each { Each (IsPlan program.now) plans.now }
    requires standing { Standing program.now plans.now machine.old }
    requires input { machine.old.input ≡ input.now }
    requires fuel { machine.old.fuel ≤ 1000000000 }
    ensures { IfOk result (AllCompared program.now plans.now (rest_of_run machine.old) compared.old compared.new) }
{
    let mut out = Row::new(alloc);
    if let Some(end) = pass_plain(machine, &mut out)? {
        return Ok(Walked::Whole(end));
    }
    for plan in plans {
        match compare_region(alloc, program, plan, input, machine, compared)? {
            After::Left => {}
            After::Ends(end) => return Ok(Walked::Whole(end)),
            After::Differs(line) => return Ok(Walked::Differs(line)),
        }
        if let Some(end) = pass_plain(machine, &mut out)? {
            return Ok(Walked::Whole(end));
        }
    }
    Ok(Walked::Whole(End::Done))
}
