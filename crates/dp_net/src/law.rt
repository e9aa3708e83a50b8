//! The laws of net items and of batches, as contracts of functions that do nothing.

ghost use Rattle.std.specs.Prelude.{◌≡◌, true};
ghost use Rattle.dp_tree.specs.Inlined.{IsInlined};
ghost use Rattle.dp_semantics.specs.Fits.{fits_plan};
ghost use Rattle.dp_net.specs.Batches.{BatchesAreRight, BatchesEnd};
ghost use Rattle.dp_net.specs.BatchItems.{BatchesAreWhole, EndsStay, NextHasSome};
ghost use Rattle.dp_net.specs.BatchMeaning.{BatchesMean};
ghost use Rattle.dp_net.specs.Follows.{ItemsFollow, TextsNest};
ghost use Rattle.dp_net.specs.NetVerdicts.{NetIsRight};

use dp_plan::Plan;
use dp_tree::Program;

/// Whichever runs of quiet statements are told as blocks, and though a turn breaks off where it goes against an assumption:
/// up to the first verdict that doesn't go on, the verdicts say what the definition's verdicts say.
pub fn net_verdicts_are_the_definitions(p: &Program, plan: &Plan)
    requires inlined { IsInlined p.now }
    requires fits { fits_plan p.now plan.now ≡ true }
    ensures { NetIsRight p.now plan.now }
{}

/// A reader of a packet that isn't void needs no tags: it follows the text, and each list has what the text asks for and nothing more.
pub fn net_items_follow_the_text(p: &Program, plan: &Plan)
    requires inlined { IsInlined p.now }
    requires fits { fits_plan p.now plan.now ≡ true }
    ensures follow { ItemsFollow p.now plan.now }
    ensures nest { TextsNest p.now plan.now }
{}

/// What is decided of a batch is what the definition decides of its iterations, one by one, and leads there; and a batch never ends too early.
pub fn batch_verdicts_are_the_definitions(p: &Program, plan: &Plan)
    requires inlined { IsInlined p.now }
    requires fits { fits_plan p.now plan.now ≡ true }
    ensures right { BatchesAreRight p.now plan.now }
    ensures ends { BatchesEnd p.now plan.now }
{}

/// Batches follow each other without a gap: a later stage's batch has no more packets than an earlier one's, one that goes on has all of its iterations,
/// the next one has an iteration, and behind a batch that goes on all verdicts do.
pub fn batches_follow_each_other()
    ensures stay { EndsStay }
    ensures whole { BatchesAreWhole }
    ensures next { NextHasSome }
    ensures mean { BatchesMean }
{}
