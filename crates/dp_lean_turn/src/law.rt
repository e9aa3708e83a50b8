//! A law of checked sites, as the contract of a function that does nothing.
ghost use Rattle.std.specs.Prelude.{◌≡◌, ◌≤◌, List, length, true};
ghost use Rattle.dp_tree.specs.Inlined.{IsInlined};
ghost use Rattle.dp_plan.specs.Access.{region_accesses};
ghost use Rattle.dp_semantics.specs.Fits.{fits_plan};
ghost use Rattle.dp_columns.specs.declared.ColumnKind.{ColumnKind};
ghost use Rattle.dp_lean_turn.specs.Made.{CheckedHavePlaces};

use dp_plan::Plan;
use dp_tree::Program;

/// Where each site of the region has a place in a stage's own columns, each checked one has.
pub fn checked_sites_have_places(p: &Program, plan: &Plan)
    requires inlined { IsInlined p.now }
    requires fits { fits_plan p.now plan.now ≡ true }
    ensures { (own : List ColumnKind) → length (region_accesses p.now plan.now) ≤ length own → CheckedHavePlaces p.now plan.now own }
{}
