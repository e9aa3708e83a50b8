//! By which store a load of a site may see what the source doesn't have.

ghost use Rattle.std.specs.Prelude.{◌≡◌};
ghost use Rattle.std.specs.List.{list_all};
ghost use Rattle.dp_sites.specs.Storings as spec;

use crate::moving::{Moving, Storing};
use crate::part::Part;
use crate::place::{Gap, Place, passes};
use crate::touched::Touched;
use dp_base::{SiteId, VarId};
use dp_plan::Plan;
use dp_tree::Program;

fn place_passes(test: Gap, site: u32, moving: Moving, place: Option<Place>) -> bool
    ensures { result ≡ spec.place_passes test site moving place }
{
    match place {
        None => false,
        Some(place) => {
            place.by.0 == moving.place.by.0
                && passes(
                    test,
                    moving.place,
                    moving.late,
                    place,
                    moving.mover < site,
                    moving.step,
                )
        }
    }
}

fn load_passes(test: Gap, site: u32, array: VarId, moving: Moving, load: Touched) -> bool
    ensures { result ≡ spec.load_passes test site array moving load }
{
    load.var.0 != array.0 || place_passes(test, site, moving, load.place)
}

fn all_pass(test: Gap, part: &Part, array: VarId, moving: Moving) -> bool
    ensures { result ≡ list_all (spec.load_passes test part.now.site array moving) part.now.loads }
{
    let loads = part.loads.as_slice();
    for load in loads {
        if !load_passes(test, part.site, array, moving, *load) {
            return false;
        }
    }
    true
}

pub fn lies_apart(test: Gap, part: &Part, storing: Storing) -> bool
    ensures { result ≡ spec.lies_apart test part.now storing }
{
    match storing.moving {
        None => false,
        Some(moving) => all_pass(test, part, storing.var, moving),
    }
}

fn end_of(part: &Part) -> u32
    ensures { result ≡ spec.end_of part.now }
{
    match part.until {
        None => part.site,
        Some(last) => last,
    }
}

/// The site stands before the other, and no inner `while` has both.
fn is_ahead(part: &Part, other: u32) -> bool
    ensures { result ≡ spec.is_ahead part.now other }
{
    part.site < other && end_of(part) < other
}

/// By this store what the site sees may differ.
fn differs_by(p: &Program, plan: &Plan, part: &Part, storing: Storing) -> bool
    ensures { result ≡ spec.differs_by p.now plan.now part.now storing }
{
    let stage = plan.stage(p, SiteId(part.site));
    if stage < storing.stage {
        !(lies_apart(Gap::Strides, part, storing)
            && (lies_apart(Gap::Whole, part, storing) || is_ahead(part, storing.site)))
    } else {
        plan.is_replicated(stage)
            && storing.stage == stage
            && !plan.is_body_local(p, storing.var)
            && !lies_apart(Gap::Strides, part, storing)
    }
}

pub fn stores_otherwise(p: &Program, plan: &Plan, part: &Part, var: VarId, storing: Storing) -> bool
    ensures { result ≡ spec.stores_otherwise p.now plan.now part.now var storing }
{
    storing.var.0 == var.0 && differs_by(p, plan, part, storing)
}

fn sees_otherwise(p: &Program, plan: &Plan, all: &[Storing], part: &Part, load: Touched) -> bool
    ensures { result ≡ spec.sees_otherwise p.now plan.now all.now part.now load }
{
    for storing in all {
        if stores_otherwise(p, plan, part, load.var, *storing) {
            return true;
        }
    }
    false
}

/// What a load of the site sees may differ from what the source has.
pub fn is_checked(p: &Program, plan: &Plan, all: &[Storing], part: &Part) -> bool
    ensures { result ≡ spec.part_checked p.now plan.now all.now part.now }
{
    let loads = part.loads.as_slice();
    for load in loads {
        if sees_otherwise(p, plan, all, part, *load) {
            return true;
        }
    }
    false
}
