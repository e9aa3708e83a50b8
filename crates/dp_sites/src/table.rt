//! The table of the sites that a plan has checked.

ghost use Rattle.std.specs.Prelude.{◌≡◌, ◌≢◌, ◌∷◌, [], IfOk, OnErr, count_by, filter, length, map, slice_get, true};
ghost use Rattle.std.specs.Option.{option_copied};
ghost use Rattle.dp_tree.specs.Numbering.{numbers_from};
ghost use Rattle.dp_plan.specs.Access.{is_region_at, region_in};
ghost use Rattle.dp_plan.specs.Checked.{is_checked};
ghost use Rattle.dp_plan.specs.CheckedTable as table;
ghost use Rattle.dp_sites.specs.Storings as spec;

use crate::differing::is_checked;
use crate::moving::{Storing, storings};
use crate::part::{Part, parts_of};
use dp_base::{NoMemory, Row};
use dp_plan::{Plan, is_region};
use dp_tree::{Program, Stmt};
use std::alloc::Global;

/// The first of the statements that is this region.
fn first_region<'p>(region: u32, all: &'p [Stmt]) -> Option<&'p Stmt>
    ensures { option_copied result ≡ slice_get (filter (is_region_at region) all.now) 0 }
{
    for statement in all {
        if is_region(region, statement) {
            return Some(statement);
        }
    }
    None
}

#[tactic(auto, unfolding(dp_plan::specs::Walks::is_region_of))]
fn region_count(region: u32, all: &[Stmt]) -> usize
    ensures { result ≡ count_by (is_region_at region) all.now }
{
    all.iter()
        .filter(|statement| is_region(region, statement))
        .count()
}

/// The region's statement. One that doesn't stand exactly once answers want of memory.
pub fn only_region<'p>(p: &'p Program, region: u32) -> Result<&'p Stmt, NoMemory>
    ensures once { IfOk result (λ s. region_in p.now region ≡ s.now ∷ []) }
    ensures not_once { OnErr result (length (region_in p.now region) ≢ 1) }
{
    let all = p.main.as_slice();
    let count = region_count(region, all);
    match first_region(region, all) {
        Some(statement) if count == 1 => Ok(statement),
        _ => Err(NoMemory),
    }
}

/// The statements at the top of a region's body.
#[tactic(auto, using(crate::proofs::MoverForms::body_forms))]
pub fn body_of(statement: &Stmt) -> &[Stmt]
    ensures { result.now ≡ spec.body_at statement.now }
{
    match statement {
        Stmt::Region { body, .. } => body.as_slice(),
        Stmt::Assign { .. }
        | Stmt::Store { .. }
        | Stmt::Print { .. }
        | Stmt::Break { .. }
        | Stmt::If { .. }
        | Stmt::While { .. }
        | Stmt::Call { .. } => &[],
    }
}

/// The sites go up one by one from the first.
pub fn goes_up(first: u32, parts: &[Part]) -> bool
    ensures { result ≡ spec.goes_up_from first parts.now }
{
    for place in 0..parts.len() {
        if parts[place].site as u128 != first as u128 + place as u128 {
            return false;
        }
    }
    true
}

fn answer(p: &Program, plan: &Plan, stores: &[Storing], part: Option<&Part>) -> bool
    ensures { result ≡ spec.checked_or p.now plan.now stores.now (option_copied part.entry) }
{
    match part {
        None => false,
        Some(part) => is_checked(p, plan, stores, part),
    }
}

fn answers(
    alloc: Global,
    p: &Program,
    plan: &Plan,
    body: &[Stmt],
    parts: &Row<Part>,
) -> Result<Row<bool>, NoMemory>
    ensures { IfOk result (λ found. found ≡ map (spec.answer_at p.now plan.now parts.now body.now) (numbers_from 0 (length plan.now.stage_of))) }
{
    let stores = storings(alloc, p, plan, parts.as_slice(), body)?;
    let mut found = Row::new(alloc);
    for place in 0..plan.stage_of.len() {
        found.push(answer(p, plan, stores.as_slice(), parts.get(place)))?;
    }
    Ok(found)
}

/// Whether each site of the region is checked.
///
/// A region whose sites don't go up one by one answers want of memory; an inlined program has none.
fn table_of(alloc: Global, p: &Program, plan: &Plan) -> Result<Row<bool>, NoMemory>
    ensures { IfOk result (λ found. found ≡ table.checked_table p.now plan.now) }
{
    let statement = only_region(p, plan.region)?;
    let parts = parts_of(alloc, statement)?;
    if !goes_up(plan.first_site(p), parts.as_slice()) {
        return Err(NoMemory);
    }
    let found = answers(alloc, p, plan, body_of(statement), &parts)?;
    Ok(found)
}

/// The plan with its table of checked sites in place of the one that it has.
///
/// It goes through the region's stores once for each load.
pub fn tabled(alloc: Global, p: &Program, plan: Plan) -> Result<Plan, NoMemory>
    ensures { IfOk result (λ tabled. tabled ≡ table.with_table p.now plan) }
{
    let checked_at = table_of(alloc, p, &plan)?;
    let mut plan = plan;
    plan.checked_at = checked_at;
    Ok(plan)
}
