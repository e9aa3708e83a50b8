//! The laws of lean texts, as contracts of functions that do nothing.

ghost use Rattle.std.specs.Prelude.{◌≡◌, true};
ghost use Rattle.dp_tree.specs.Inlined.{IsInlined};
ghost use Rattle.dp_semantics.specs.Fits.{fits_plan};
ghost use Rattle.dp_lean.specs.Laws.{LeanJudgesAreJudges, LeanTurnsAreTurns, MemoriesGoOn, PacketsCome};

use dp_plan::Plan;
use dp_tree::Program;

/// What comes to a stage, or to the judge, and isn't void, follows the text and is of it.
pub fn packets_come(p: &Program, plan: &Plan)
    requires inlined { IsInlined p.now }
    requires fits { fits_plan p.now plan.now ≡ true }
    ensures { PacketsCome p.now plan.now }
{}

/// A turn that reads what its stage needs alone, site by site, ends as the turn that follows all items: it breaks off where that one does, tells the same,
/// and leaves the same in the cells that the stage or the next one's workers load. It uses up what the packet brought for each site that it reads.
pub fn lean_turns_are_turns(p: &Program, plan: &Plan)
    requires inlined { IsInlined p.now }
    requires fits { fits_plan p.now plan.now ≡ true }
    ensures { LeanTurnsAreTurns p.now plan.now }
{}

/// A packet is judged as the lean judging says, which compares the loads of checked sites alone, where its steps don't pass the limit.
pub fn lean_judges_are_judges(p: &Program, plan: &Plan)
    requires inlined { IsInlined p.now }
    requires fits { fits_plan p.now plan.now ≡ true }
    ensures { LeanJudgesAreJudges p.now plan.now }
{}

/// Memories that agree on what a stage wants still do where the next iteration starts, and for the workers that begin with them.
pub fn memories_go_on(p: &Program, plan: &Plan)
    requires fits { fits_plan p.now plan.now ≡ true }
    ensures { MemoriesGoOn p.now plan.now }
{}
