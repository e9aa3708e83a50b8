//! A region's iterations, one after the other.
ghost use Rattle.std.specs.Prelude.{◌≡◌, ◌≤◌, is_some, IfOk};
ghost use Rattle.dp_log.specs.LogText.{group_bytes};
ghost use Rattle.dp_view.specs.Changed.{Cleared};
ghost use Rattle.dp_view.specs.Viewed.{settled};
ghost use Rattle.dp_auditor.specs.Comparing.{Compares};
ghost use Rattle.dp_auditor.specs.Gathered.{sets_between};
ghost use Rattle.dp_auditor.specs.Ending as definition;
ghost use Rattle.dp_auditor.specs.Regions.{AtRegion};
ghost use Rattle.dp_auditor.specs.Turned.{LastCompared, OneCompared};
ghost use Rattle.dp_auditor.specs.Walking.{IterationsCompared, RegionCompared, StartsAtRegion};

use crate::comparing::Comparing;
use crate::lines::{Lines, without_locals};
use crate::watching::follow;
use dp_base::{Cause, End, NoMemory, Row};
use dp_log::{put_closed, put_region};
use dp_meaning::{IterEnd, Loads, Machine};
use dp_plan::Plan;
use dp_tree::Program;
use dp_view::Views;
use std::alloc::Global;

/// What comes after a region's lines.
#[derive(Clone, Copy)]
pub(crate) enum After {
    /// The region was left.
    Left,
    /// The run has ended in it.
    Ends(End),
    /// A line differs: the first that does.
    Differs(u32),
}

/// An iteration that was gone through.
#[derive(Clone, Copy)]
struct Made<'a> {
    iteration: u64,
    end: IterEnd,
    prints: &'a [i64],
}

/// Where the next iteration begins.
fn begin_next(views: &mut Views<'_>, again: bool)
    ensures { views.new ≡ definition.begun_next again views.old }
{
    if again {
        views.begin_epoch();
    } else {
        views.go_on();
    }
}

/// What comes where no further iteration follows one that ended so, and whether that has to be executed again.
fn last_of(end: IterEnd, found: Option<Cause>) -> (After, bool)
    ensures { result ≡ definition.last_of end found }
{
    match end {
        IterEnd::Closed => (After::Left, found.is_some()),
        IterEnd::Fault(fault) => (After::Ends(End::Fault(fault)), true),
        IterEnd::Next | IterEnd::Fuel | IterEnd::Going => (After::Ends(End::Fuel), true),
    }
}

/// What comes behind lines of which this one differs, if one does.
fn unless_differs(differs: Option<u32>, after: After) -> After
    ensures { result ≡ definition.unless_differs differs after }
{
    match differs {
        Some(line) => After::Differs(line),
        None => after,
    }
}

/// What comes behind lines of an iteration that another one follows, of which this one differs, if one does.
fn if_differs(differs: Option<u32>) -> Option<After>
    ensures { result ≡ definition.if_differs differs }
{
    match differs {
        Some(line) => Some(After::Differs(line)),
        None => None,
    }
}

/// Compares the lines of an iteration that another one follows, and what is kept begins there.
fn compare_next(
    views: &mut Views<'_>,
    iteration: u64,
    prints: &[i64],
    lines: &mut Lines,
    compared: &mut Comparing<'_>,
) -> Result<Option<u32>, NoMemory>
    requires before { Cleared views.old.program views.old.plan views.old.before }
    ensures views { IfOk result (λ _. views.new ≡ definition.begun_next (is_some views.old.found) (settled views.old)) }
    ensures text { IfOk result
        (Compares compared.old compared.new (group_bytes iteration (is_some views.old.found)
        (sets_between views.old.before (settled views.old).source) prints.now)) }
{
    let again = views.found().is_some();
    views.settle();
    lines.gather(views, iteration, again, prints)?;
    let differs = compared.take(lines.text());
    begin_next(views, again);
    Ok(differs)
}

/// Compares the lines of an iteration that none follows, and answers what comes behind it.
fn compare_last(
    alloc: Global,
    program: &Program,
    plan: &Plan,
    made: Made<'_>,
    ahead: &Machine<'_>,
    views: &Views<'_>,
    lines: &mut Lines,
    compared: &mut Comparing<'_>,
) -> Result<After, NoMemory>
    ensures { IfOk result (LastCompared program.now plan.now made.entry.end made.entry.iteration made.entry.prints.now ahead.now.config.cells views.now
        compared.old compared.new) }
{
    let (after, again) = last_of(made.end, views.found());
    let memory = without_locals(alloc, program, plan.region, ahead.cells())?;
    lines.gather_last(
        views.before(),
        memory.as_slice(),
        made.iteration,
        again,
        made.prints,
    )?;
    Ok(unless_differs(compared.take(lines.text()), after))
}

/// Compares the lines of an iteration, and what is kept begins where the next one does, if one follows. Where none does, or a
/// line differs, what comes behind it is answered.
fn compare_one(
    alloc: Global,
    program: &Program,
    plan: &Plan,
    made: Made<'_>,
    ahead: &Machine<'_>,
    views: &mut Views<'_>,
    lines: &mut Lines,
    compared: &mut Comparing<'_>,
) -> Result<Option<After>, NoMemory>
    requires before { made.end ≡ IterEnd.Next → Cleared views.old.program views.old.plan views.old.before }
    ensures { IfOk result (OneCompared program.now plan.now made.entry.end made.entry.iteration made.entry.prints.now ahead.now.config.cells views.old views.new
        compared.old compared.new) }
{
    match made.end {
        IterEnd::Next => {
            let differs = compare_next(views, made.iteration, made.prints, lines, compared)?;
            Ok(if_differs(differs))
        }
        _ => {
            let after = compare_last(alloc, program, plan, made, ahead, views, lines, compared)?;
            Ok(Some(after))
        }
    }
}

/// Compares the lines of the iterations of the region that comes next for `ahead`, which goes through each of them at once;
/// `behind` makes the same steps again, and is watched.
fn compare_iterations(
    alloc: Global,
    program: &Program,
    plan: &Plan,
    ahead: &mut Machine<'_>,
    behind: &mut Machine<'_>,
    views: &mut Views<'_>,
    compared: &mut Comparing<'_>,
) -> Result<After, NoMemory>
    requires starts { StartsAtRegion ahead.old behind.old views.old }
    requires program { views.old.program ≡ program.now }
    requires plan { views.old.plan ≡ plan.now }
    ensures { IfOk result (IterationsCompared program.now plan.now ahead.old ahead.new compared.old compared.new) }
{
    let mut lines = Lines::new(alloc);
    let mut prints = Row::new(alloc);
    let mut out = Row::new(alloc);
    let mut loads = Loads::new(alloc);
    let mut iteration = 0;
    'iterations: loop {
        if ahead.steps() == ahead.fuel() {
            return Ok(After::Ends(End::Fuel));
        }
        prints.clear();
        let end = ahead.iterate(u32::MAX, &mut prints)?;
        follow(behind, ahead.steps(), views, &mut loads, &mut out)?;
        let made = Made {
            iteration,
            end,
            prints: prints.as_slice(),
        };
        if let Some(after) = compare_one(
            alloc, program, plan, made, ahead, views, &mut lines, compared,
        )? {
            return Ok(after);
        }
        iteration += 1;
    }
}

/// Compares the lines of the plan's region, which comes next.
pub(crate) fn compare_region<'p>(
    alloc: Global,
    program: &'p Program,
    plan: &'p Plan,
    input: &'p [i64],
    ahead: &mut Machine<'p>,
    compared: &mut Comparing<'_>,
) -> Result<After, NoMemory>
    requires at { AtRegion program.now plan.now ahead.old }
    requires input { ahead.old.input ≡ input.now }
    ensures { IfOk result (RegionCompared program.now plan.now ahead.old ahead.new compared.old compared.new) }
{
    if ahead.steps() == ahead.fuel() {
        return Ok(After::Ends(End::Fuel));
    }
    let mut text = Row::new(alloc);
    put_region(&mut text, plan.region)?;
    if let Some(line) = compared.take(text.as_slice()) {
        return Ok(After::Differs(line));
    }
    let cells = ahead.cells().copy()?;
    let (fuel, steps) = (ahead.fuel(), ahead.steps());
    let mut behind = Machine::at_region(alloc, program, input, fuel, plan.region, cells, steps)?;
    let mut views = Views::begin(alloc, program, plan, ahead.cells())?;
    let (behind, views) = (&mut behind, &mut views);
    match compare_iterations(alloc, program, plan, ahead, behind, views, compared)? {
        After::Left => {}
        After::Ends(end) => return Ok(After::Ends(end)),
        After::Differs(line) => return Ok(After::Differs(line)),
    }
    text.clear();
    put_closed(&mut text, plan.region)?;
    match compared.take(text.as_slice()) {
        Some(line) => Ok(After::Differs(line)),
        None => Ok(After::Left),
    }
}
