//! The stores of a region, and which of them move evenly with a variable.

ghost use Rattle.std.specs.Prelude.{◌≡◌, ◌==◌, IfOk, count_by, slice_get};
ghost use Rattle.dp_plan.specs.IsFar.{is_scalar_entry};
ghost use Rattle.dp_sites.specs.Storings as spec;

use crate::part::Part;
use crate::place::{Place, Step, step_of};
use dp_base::{NoMemory, Row, SiteId, VarId};
use dp_plan::Plan;
use dp_tree::{Program, Stmt};
use std::alloc::Global;

/// A statement that moves a variable.
#[derive(Clone, Copy)]
pub struct Mover {
    pub site: u32,
    pub step: Step,
}

/// A place that is stored, and how it moves.
#[derive(Clone, Copy)]
pub struct Moving {
    pub place: Place,
    /// The store stands behind the mover.
    pub late: bool,
    pub step: Step,
    /// The mover's site.
    pub mover: u32,
}

/// A site that stores.
#[derive(Clone, Copy)]
pub struct Storing {
    pub site: u32,
    pub stage: u32,
    pub var: VarId,
    pub moving: Option<Moving>,
}

fn mover_by(site: SiteId, step: Option<Step>) -> Option<Mover>
    ensures { result ≡ spec.mover_by site step }
{
    let step = step?;
    Some(Mover { site: site.0, step })
}

/// The statement, where it moves the variable.
#[tactic(auto, using(crate::proofs::MoverForms::mover_forms), unfolding(crate::specs::Place::stride_at))]
fn mover_of(moved: VarId, statement: &Stmt) -> Option<Mover>
    ensures { result ≡ spec.mover_of moved statement.now }
{
    match statement {
        Stmt::Assign { site, var, value } => {
            if var.0 == moved.0 {
                mover_by(*site, step_of(moved, value))
            } else {
                None
            }
        }
        Stmt::Store { .. }
        | Stmt::Print { .. }
        | Stmt::Break { .. }
        | Stmt::If { .. }
        | Stmt::While { .. }
        | Stmt::Region { .. }
        | Stmt::Call { .. } => None,
    }
}

/// The first of the statements that moves the variable.
fn mover_in(moved: VarId, all: &[Stmt]) -> Option<Mover>
    ensures { result ≡ spec.mover_in moved all.now }
{
    for statement in all {
        if let Some(mover) = mover_of(moved, statement) {
            return Some(mover);
        }
    }
    None
}

fn stores(part: &Part, var: VarId) -> bool
    ensures { result ≡ spec.part_stores var part.now }
{
    match part.stores {
        Some(touched) => touched.var.0 == var.0,
        None => false,
    }
}

fn is_stored_once(all: &[Part], var: VarId) -> bool
    ensures { result ≡ (count_by (spec.part_stores var) all.now == 1) }
{
    all.iter().filter(|part| stores(part, var)).count() == 1
}

fn is_scalar(p: &Program, var: VarId) -> bool
    ensures { result ≡ is_scalar_entry (slice_get p.now.vars var.0) }
{
    match p.vars.get(var.0 as usize) {
        Some(info) => !info.array,
        None => false,
    }
}

fn is_moved_alone(p: &Program, plan: &Plan, all: &[Part], var: VarId) -> bool
    ensures { result ≡ spec.is_moved_alone p.now plan.now all.now var }
{
    is_scalar(p, var) && !plan.is_body_local(p, var) && is_stored_once(all, var)
}

fn moving_with(site: u32, place: Place, mover: Option<Mover>) -> Option<Moving>
    ensures { result ≡ spec.moving_with site place mover }
{
    let mover = mover?;
    Some(Moving {
        place,
        late: mover.site < site,
        step: mover.step,
        mover: mover.site,
    })
}

fn moving_of(
    p: &Program,
    plan: &Plan,
    all: &[Part],
    body: &[Stmt],
    site: u32,
    place: Option<Place>,
) -> Option<Moving>
    ensures { result ≡ spec.moving_of p.now plan.now all.now body.now site place }
{
    let place = place?;
    if plan.proved && is_moved_alone(p, plan, all, place.by) {
        moving_with(site, place, mover_in(place.by, body))
    } else {
        None
    }
}

pub fn storing_at(
    p: &Program,
    plan: &Plan,
    all: &[Part],
    body: &[Stmt],
    part: &Part,
) -> Option<Storing>
    ensures { result ≡ spec.storing_at p.now plan.now all.now body.now part.now }
{
    let stored = part.stores?;
    Some(Storing {
        site: part.site,
        stage: plan.stage(p, SiteId(part.site)),
        var: stored.var,
        moving: moving_of(p, plan, all, body, part.site, stored.place),
    })
}

/// The sites that store.
pub fn storings(
    alloc: Global,
    p: &Program,
    plan: &Plan,
    all: &[Part],
    body: &[Stmt],
) -> Result<Row<Storing>, NoMemory>
    ensures { IfOk result (λ found. found ≡ spec.storings p.now plan.now all.now body.now) }
{
    let mut found = Row::new(alloc);
    for part in all {
        if let Some(storing) = storing_at(p, plan, all, body, part) {
            found.push(storing)?;
        }
    }
    Ok(found)
}
