//! The laws of the definitions, as contracts of functions that do nothing: the central theorem first.

ghost use Rattle.std.specs.Prelude.{◌≡◌, true};
ghost use Rattle.dp_tree.specs.Inlined.{IsInlined};
ghost use Rattle.dp_plan.specs.CheckedTable.{IsTabled};
ghost use Rattle.dp_plan.specs.GivenPlans.{IsPlan};
ghost use Rattle.dp_semantics.specs.DecidesRightly.{DecidesRightly};
ghost use Rattle.dp_semantics.specs.EpochCauses.{FindsInEpochs};
ghost use Rattle.dp_semantics.specs.FarPairs.{FarNeverCarried, FarNeverWithin};
ghost use Rattle.dp_semantics.specs.FindsCauses.{FindsCauses};
ghost use Rattle.dp_semantics.specs.Fits.{fits_plan, stands_alone};
ghost use Rattle.dp_semantics.specs.Laws.{CleanInOneStage, CleanWithoutCause, LongIsUnclean, RecoversInOrder};
ghost use Rattle.dp_semantics.specs.LoadedCells.{CellsTellLoads};
ghost use Rattle.dp_semantics.specs.Resumed.{BeginsThere, JudgesResumed, LaterChangesNothing, RegionReportsAlone, ReportsGoOn};
ghost use Rattle.dp_semantics.specs.Shift.{EpochsShift, RegionRunsAlone, VerdictsShift};
ghost use Rattle.dp_semantics.specs.Told.{StoresAreAll, Tells};
ghost use Rattle.dp_semantics.specs.TurnBound.{BoundNeverDecides};
ghost use Rattle.dp_semantics.specs.ValidPlan.{OneStageFits, OneStageTabled, RegionsStandAlone, RegionsStandOnce, ValidPlanFits, ValidPlanTabled};
ghost use Rattle.dp_semantics.specs.Verdict.{ClosingLeaves, JudgesEpochs, JudgesRightly, StoresLead};

use dp_plan::Plan;
use dp_tree::Program;

/// In each run that begins within `main`, the judgement on an epoch's packets is Clean exactly at the clean iterations, and it holds what the source did there.
/// Which packets there are is a matter of the definitions alone: no stage has to run.
pub fn judgement_is_the_sources(p: &Program, plan: &Plan)
    requires { fits_plan p.now plan.now ≡ true }
    ensures judged { JudgesRightly p.now plan.now }
    ensures in_epochs { JudgesEpochs p.now plan.now }
    ensures resumed { JudgesResumed p.now plan.now }
    ensures led { StoresLead p.now plan.now }
    ensures left { ClosingLeaves p.now plan.now }
{}

/// What the laws ask of a program and a plan, an inlined program and a valid plan of one of its regions have.
#[tactic(auto, using(crate::proofs::ValidFits::valid_fits, crate::proofs::ValidTables::valid_tabled, crate::proofs::ValidFits::regions_alone, crate::proofs::OnceInMain::regions_once))]
pub fn valid_plans_fit(p: &Program, plan: &Plan)
    requires { IsInlined p.now }
    ensures fits { ValidPlanFits p.now plan.now }
    ensures tabled { ValidPlanTabled p.now plan.now }
    ensures alone { RegionsStandAlone p.now }
    ensures once { RegionsStandOnce p.now }
{}

/// A plan that is valid as data, whatever text it came from, fits its inlined program, and its table is right.
pub fn given_plans_fit(p: &Program, plan: &Plan)
    requires inlined { IsInlined p.now }
    requires plan { IsPlan p.now plan.now }
    ensures fits { fits_plan p.now plan.now ≡ true }
    ensures tabled { IsTabled p.now plan.now }
{}

/// The one-stage plan of each region fits an inlined program, and its table is right.
pub fn one_stage_fits(p: &Program)
    requires { IsInlined p.now }
    ensures fits { OneStageFits p.now }
    ensures tabled { OneStageTabled p.now }
{}

/// A pair of accesses that is far never shows as carried, and one that is far within never as intra.
pub fn far_pairs_are_apart(p: &Program, plan: &Plan)
    requires { fits_plan p.now plan.now ≡ true }
    ensures carried { FarNeverCarried p.now plan.now }
    ensures within { FarNeverWithin p.now plan.now }
{}

/// An iteration that has ended and isn't clean has an event that is the cause.
pub fn unclean_has_a_cause(p: &Program, plan: &Plan)
    requires { fits_plan p.now plan.now ≡ true }
    ensures { CleanWithoutCause p.now plan.now }
{}

/// The source's steps through an iteration, with one memory for each stage, find the iteration's cause, and none where it is clean.
/// In an epoch these memories follow from its base and its judgements alone.
pub fn walks_find_causes(p: &Program, plan: &Plan)
    requires { fits_plan p.now plan.now ≡ true }
    ensures runs { FindsCauses p.now plan.now }
    ensures epochs { FindsInEpochs p.now plan.now }
{}

/// With all of a region in one stage an iteration is clean where it has ended and has at most 4,096 events.
#[tactic(auto, using(crate::proofs::OneStage::clean_in_one_stage))]
pub fn one_stage_is_clean(p: &Program, region: u32)
    requires { stands_alone p.now region ≡ true }
    ensures { CleanInOneStage p.now region }
{}

/// The iterations that are executed again are listed in ascending order, the begun ones that aren't clean in their epochs and no others.
pub fn recovered_ascend(p: &Program, plan: &Plan)
    ensures { RecoversInOrder p.now plan.now }
{}

/// What is said of the iterations of a run is said of the run from one of them on, and so of the region's own run.
pub fn verdicts_go_on(p: &Program, plan: &Plan)
    ensures verdicts { VerdictsShift p.now plan.now }
    ensures epochs { EpochsShift p.now plan.now }
    ensures alone { RegionRunsAlone p.now plan.now }
{}

/// A Clean judgement tells the stores, the prints and the number of steps of its iteration, in the source's order.
pub fn a_judgement_tells_all(plan: &Plan)
    ensures told { Tells plan.now }
    ensures stores { StoresAreAll }
{}

/// A stage's turn ends by its words: the bound of its steps never decides.
#[tactic(auto, using(crate::proofs::TurnEnds::bound_idle))]
pub fn turns_end_by_their_words(p: &Program, plan: &Plan)
    ensures { BoundNeverDecides p.now plan.now }
{}

/// Behind verdicts that go on, an epoch's next verdict is to commit exactly where the iteration is clean in the run that begins with the epoch.
pub fn verdicts_are_right(p: &Program, plan: &Plan)
    requires { fits_plan p.now plan.now ≡ true }
    ensures { DecidesRightly p.now plan.now }
{}

/// An iteration with more events than all stages together may have words isn't clean, so what it did needn't be known.
pub fn long_is_unclean(p: &Program, plan: &Plan)
    requires { fits_plan p.now plan.now ≡ true }
    ensures { LongIsUnclean p.now plan.now }
{}

/// A run may be saved before an iteration and gone on with from there: an epoch begins there, nothing before it changes, and its report follows from those of
/// the pieces.
pub fn reports_go_on(p: &Program, plan: &Plan)
    ensures begins { BeginsThere p.now plan.now }
    ensures before { LaterChangesNothing p.now plan.now }
    ensures alone { RegionReportsAlone p.now plan.now }
    ensures pieces { ReportsGoOn p.now plan.now }
{}

/// An event's loads follow from their cells and the memory before the step, so it is enough to be told the cells.
#[tactic(auto, using(crate::proofs::LoadedCells::cells_tell_loads))]
pub fn cells_tell_the_loads(p: &Program)
    ensures { CellsTellLoads p.now }
{}
