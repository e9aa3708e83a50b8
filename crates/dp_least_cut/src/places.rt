//! The least places of the cuts.
ghost use Rattle.std.specs.Prelude.{◌≡◌, ◌<◌, ◌≤◌, ◌+◌, ◌^◌, ℕ, List, Bool, true, false, length, sum, IfOk, IfSome, IfNone, if◌then◌else◌, slice_index};
ghost use Rattle.dp_least_cut.specs.LeastCut.{IsLeastCut};
ghost use Rattle.dp_least_cut.specs.Allowed.{weight_between};
ghost use Rattle.dp_least_cut.specs.steps.Fits.{Fits, TellsNeed};
ghost use Rattle.dp_least_cut.specs.steps.Best.{AreCosts, AreLimits, Best, Stands, MayStand, IsBeginning};

use crate::Stretch;
use crate::bound::least_bound;
use crate::limits::limits;
use crate::needs::{Costs, Needs, may_end, shared, stage_needs};
use dp_base::{NoMemory, Row};
use std::alloc::Global;

/// The least cut of units with these weights into at most so many stages. `carried` lists the pairs of units with a
/// carried edge from the one to the other.
pub fn cut_units(
    alloc: Global,
    weights: &[u64],
    carried: &[(u32, u32)],
    stages: u32,
    workers: u32,
) -> Result<Row<Stretch>, NoMemory>
    requires count { length weights.now < 2 ^ 32 }
    requires total { sum weights.now < 2 ^ 63 }
    requires stages { 0 < stages }
    requires few_stages { stages < 9 }
    requires workers { 0 < workers }
    requires few_workers { workers < 9 }
    ensures { IfOk result (λ cut. IsLeastCut weights.now carried.now stages workers cut) }
{
    let limits = limits(alloc, weights.len() as u32, carried)?;
    let costs = Costs {
        weights,
        limits: limits.as_slice(),
        workers: u64::from(workers),
    };
    let bound = least_bound(alloc, costs, stages)?;
    let needs = stage_needs(alloc, costs, bound)?;
    let cut = stretches(alloc, costs, bound, &needs, stages)?;
    Ok(cut)
}

/// From the front on the shortest stages after which the rest can keep the bound, and one stage as soon as it can be the last.
fn stretches(
    alloc: Global,
    costs: Costs<'_>,
    bound: u64,
    needs: &Needs,
    stages: u32,
) -> Result<Row<Stretch>, NoMemory>
    requires costs { AreCosts costs.weights.now costs.limits.now costs.workers }
    requires seq_length { length needs.now.after_seq.items ≡ length costs.weights.now + 1 }
    requires par_length { length needs.now.after_par.items ≡ length costs.weights.now + 1 }
    requires seq { (carried : List (ℕ × ℕ)) → AreLimits carried costs.limits.now → TellsNeed costs.weights.now carried costs.workers bound false 0
        needs.now.after_seq.items }
    requires par { (carried : List (ℕ × ℕ)) → AreLimits carried costs.limits.now → TellsNeed costs.weights.now carried costs.workers bound true 0
        needs.now.after_par.items }
    requires few { stages < 9 }
    requires fits { (carried : List (ℕ × ℕ)) → AreLimits carried costs.limits.now → Fits costs.weights.now carried costs.workers bound stages true 0 }
    ensures { IfOk result (λ cut. (carried : List (ℕ × ℕ)) → AreLimits carried costs.entry.limits.now →
        Best costs.entry.weights.now carried costs.entry.workers bound stages true 0 cut) }
{
    let mut cut = Row::new(alloc);
    let mut begin = 0;
    let mut closed = true;
    let mut left = stages;
    while begin < costs.weights.len() && left > 0 {
        left -= 1;
        let stage = next_stage(costs, bound, needs, begin, closed, left);
        begin += stage.units as usize;
        closed = stage.replicated;
        cut.push(stage)?;
    }
    Ok(cut)
}

/// The rest as one stage where it keeps the bound, and else the shortest stage after which so many stages suffice.
fn next_stage(
    costs: Costs<'_>,
    bound: u64,
    needs: &Needs,
    begin: usize,
    closed: bool,
    left: u32,
) -> Stretch
    requires costs { AreCosts costs.weights.now costs.limits.now costs.workers }
    requires begin { begin < length costs.weights.now }
    requires left { left < 8 }
    requires seq_length { length needs.now.after_seq.items ≡ length costs.weights.now + 1 }
    requires par_length { length needs.now.after_par.items ≡ length costs.weights.now + 1 }
    requires seq { (carried : List (ℕ × ℕ)) → AreLimits carried costs.limits.now → TellsNeed costs.weights.now carried costs.workers bound false 0
        needs.now.after_seq.items }
    requires par { (carried : List (ℕ × ℕ)) → AreLimits carried costs.limits.now → TellsNeed costs.weights.now carried costs.workers bound true 0
        needs.now.after_par.items }
    ensures { (carried : List (ℕ × ℕ)) → AreLimits carried costs.entry.limits.now → Fits costs.entry.weights.now carried costs.entry.workers bound (left + 1)
        closed begin → IsBeginning costs.entry.weights.now carried costs.entry.workers bound left closed begin result }
{
    let count = costs.weights.len();
    if let Some(replicated) = kind(costs, bound, begin, count, closed) {
        return Stretch {
            units: (count - begin) as u32,
            replicated,
        };
    }
    for end in begin + 1..count {
        if let Some(replicated) = first_kind(costs, bound, needs, begin, end, closed, left) {
            return Stretch {
                units: (end - begin) as u32,
                replicated,
            };
        }
    }
    Stretch {
        units: (count - begin) as u32,
        replicated: false,
    }
}

/// Whether a stage of the units from `begin` up to `end`, after which so many stages suffice, is replicated (true) or sequential (false).
fn first_kind(
    costs: Costs<'_>,
    bound: u64,
    needs: &Needs,
    begin: usize,
    end: usize,
    closed: bool,
    left: u32,
) -> Option<bool>
    requires costs { AreCosts costs.weights.now costs.limits.now costs.workers }
    requires some { begin < end }
    requires within { end ≤ length costs.weights.now }
    requires left { left < 8 }
    requires seq_length { length needs.now.after_seq.items ≡ length costs.weights.now + 1 }
    requires par_length { length needs.now.after_par.items ≡ length costs.weights.now + 1 }
    requires seq { (carried : List (ℕ × ℕ)) → AreLimits carried costs.limits.now → TellsNeed costs.weights.now carried costs.workers bound false 0
        needs.now.after_seq.items }
    requires par { (carried : List (ℕ × ℕ)) → AreLimits carried costs.limits.now → TellsNeed costs.weights.now carried costs.workers bound true 0
        needs.now.after_par.items }
    ensures stands { IfSome result (λ r. Stands costs.entry.weights.now costs.entry.limits.now costs.entry.workers bound closed begin end r) }
    ensures least { IfSome result (λ r. r ≡ true → bound < weight_between costs.entry.weights.now begin end) }
    ensures rest { IfSome result (λ r. (carried : List (ℕ × ℕ)) → AreLimits carried costs.entry.limits.now →
        Fits costs.entry.weights.now carried costs.entry.workers bound left r end) }
    ensures none { IfNone result ((carried : List (ℕ × ℕ)) → AreLimits carried costs.entry.limits.now → (r : Bool) →
        MayStand costs.entry.weights.now carried costs.entry.workers bound closed begin end r →
        ¬ Fits costs.entry.weights.now carried costs.entry.workers bound left r end) }
{
    match kind(costs, bound, begin, end, closed) {
        Some(replicated) => {
            if rest_needs(needs, end, replicated) <= left {
                Some(replicated)
            } else {
                None
            }
        }
        None => None,
    }
}

/// How many stages are needed from this place on, after such a stage.
fn rest_needs(needs: &Needs, end: usize, replicated: bool) -> u32
    requires seq { end < length needs.now.after_seq.items }
    requires par { end < length needs.now.after_par.items }
    ensures { result ≡ (if replicated then slice_index needs.now.after_par.items end else slice_index needs.now.after_seq.items end) }
{
    if replicated {
        needs.after_par[end]
    } else {
        needs.after_seq[end]
    }
}

/// Whether a stage of the units from `begin` up to `end` keeps the bound replicated (true), sequential (false), or not at all.
fn kind(costs: Costs<'_>, bound: u64, begin: usize, end: usize, closed: bool) -> Option<bool>
    requires costs { AreCosts costs.weights.now costs.limits.now costs.workers }
    requires begin { begin < length costs.weights.now }
    requires some { begin ≤ end }
    requires within { end ≤ length costs.weights.now }
    ensures stands { IfSome result (λ r. Stands costs.entry.weights.now costs.entry.limits.now costs.entry.workers bound closed begin end r) }
    ensures least { IfSome result (λ r. r ≡ true → bound < weight_between costs.entry.weights.now begin end) }
    ensures none { IfNone result ((r : Bool) → ¬ Stands costs.entry.weights.now costs.entry.limits.now costs.entry.workers bound closed begin end r) }
{
    let weight = weight_of(costs.weights, begin, end);
    if weight <= bound {
        return Some(false);
    }
    if may_end(costs, begin, end, closed) && shared(weight, costs.workers) <= bound {
        return Some(true);
    }
    None
}

/// The weight of the units from `begin` up to `end`.
#[tactic(auto, using(crate::proofs::Weights::weight_more, crate::proofs::Weights::weight_low, crate::proofs::Weights::weight_none))]
fn weight_of(weights: &[u64], begin: usize, end: usize) -> u64
    requires some { begin ≤ end }
    requires within { end ≤ length weights.now }
    requires total { sum weights.now < 2 ^ 63 }
    ensures value { result ≡ weight_between weights.now begin end }
    ensures small { result < 2 ^ 63 }
{
    let mut weight = 0;
    for unit in begin..end {
        weight += weights[unit];
    }
    weight
}
