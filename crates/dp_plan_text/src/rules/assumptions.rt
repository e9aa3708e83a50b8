//! Rules 7 to 9: inner conditions come in time, or are assumed, and nothing else is assumed.

ghost use Rattle.std.specs.Prelude.{◌≡◌, ◌∷◌, [], IfOk, map, filter};
ghost use Rattle.std.specs.List.Sorted.{IsNonDecreasing};
ghost use Rattle.dp_plan.specs.Rules as rules;
ghost use Rattle.dp_plan_text.specs.steps.Tables as tables;
ghost use Rattle.dp_plan.specs.Valid.{broken_from};

use super::written_stage;
use crate::conditions::{condition_sites, ifs_of, inner_whiles_of};
use crate::least::{in_order, is_outside, least_outside, least_repeated, lesser, lesser_of};
use dp_base::{NoMemory, Row};
use dp_plan::{BrokenRule, Enclosing, WrittenPlan};
use dp_tree::Program;
use std::alloc::Global;

/// The condition is in a later stage than a site inside its statement.
fn comes_late(w: &WrittenPlan, condition: &Enclosing) -> bool
    ensures { result ≡ rules.comes_late w.now condition.now }
{
    let stage = written_stage(w, condition.site);
    let inside = condition.inside.as_slice();
    for site in inside {
        if written_stage(w, *site) < stage {
            return true;
        }
    }
    false
}

/// The least condition that comes late.
fn late_while(w: &WrittenPlan, whiles: &[Enclosing]) -> Option<u32>
    ensures { result ≡ rules.least (map rules.site_of_condition (filter (rules.comes_late w.now) whiles.now)) }
{
    let mut found = None;
    for condition in whiles {
        if comes_late(w, condition) {
            found = lesser(condition.site, found);
        }
    }
    found
}

/// The condition comes late, and isn't among those assumed.
fn is_late_unassumed(w: &WrittenPlan, assumed: &[u32], condition: &Enclosing) -> bool
    requires { IsNonDecreasing assumed.now }
    ensures { result ≡ tables.is_late_outside w.now assumed.now condition.now }
{
    comes_late(w, condition) && is_outside(assumed, condition.site)
}

/// The least condition that comes late and isn't assumed.
fn late_if(w: &WrittenPlan, assumed: &[u32], ifs: &[Enclosing]) -> Option<u32>
    requires { IsNonDecreasing assumed.now }
    ensures { result ≡ rules.least (map rules.site_of_condition (filter (tables.is_late_outside w.now assumed.now) ifs.now)) }
{
    let mut found = None;
    for condition in ifs {
        if is_late_unassumed(w, assumed, condition) {
            found = lesser(condition.site, found);
        }
    }
    found
}

/// The sites of the assumptions, as they stand.
fn assumed_sites(alloc: Global, w: &WrittenPlan) -> Result<Row<u32>, NoMemory>
    ensures { IfOk result (λ sites. sites ≡ map rules.assumed_site w.now.assume) }
{
    let mut sites = Row::new(alloc);
    let all = w.assume.as_slice();
    for assumption in all {
        sites.push(assumption.site.0)?;
    }
    Ok(sites)
}

/// The least assumed site that is no `if`, or is assumed more than once.
fn wrongly_assumed(
    alloc: Global,
    assumed: &[u32],
    ifs: &[Enclosing],
) -> Result<Option<u32>, NoMemory>
    requires { IsNonDecreasing assumed.now }
    ensures { IfOk result (λ site. site ≡ rules.least (filter (tables.is_outside_or_again (map rules.site_of_condition ifs.now) assumed.now) assumed.now)) }
{
    let own = in_order(condition_sites(alloc, ifs)?);
    let other = least_outside(assumed, own.as_slice());
    let again = least_repeated(assumed);
    Ok(lesser_of(other, again))
}

/// The first of the three rules that the plan breaks.
pub fn broken(alloc: Global, p: &Program, w: &WrittenPlan) -> Result<Option<BrokenRule>, NoMemory>
    ensures { IfOk result (λ broken. broken ≡ broken_from 7 (rules.late_while p.now w.now ∷ rules.late_if p.now w.now
        ∷ rules.wrongly_assumed p.now w.now ∷ [])) }
{
    let whiles = inner_whiles_of(alloc, p, w.region)?;
    if let Some(site) = late_while(w, whiles.as_slice()) {
        return Ok(Some(BrokenRule { rule: 7, site }));
    }
    let ifs = ifs_of(alloc, p, w.region)?;
    let assumed = in_order(assumed_sites(alloc, w)?);
    if let Some(site) = late_if(w, assumed.as_slice(), ifs.as_slice()) {
        return Ok(Some(BrokenRule { rule: 8, site }));
    }
    if let Some(site) = wrongly_assumed(alloc, assumed.as_slice(), ifs.as_slice())? {
        return Ok(Some(BrokenRule { rule: 9, site }));
    }
    Ok(None)
}
