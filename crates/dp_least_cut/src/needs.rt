//! How many stages are needed from each unit on, where none may cost more than a bound.
ghost use Rattle.std.specs.Prelude.{◌≡◌, ◌<◌, ◌≤◌, ◌+◌, ◌⊎◌, ◌↔◌, ◌^◌, ℕ, Bool, true, false, List, length, slice_index, IfOk};
ghost use Rattle.dp_least_cut.specs.Allowed.{cost_of};
ghost use Rattle.dp_least_cut.specs.steps.Fits.{StageFits, TellsNeed};
ghost use Rattle.dp_least_cut.specs.steps.Best.{AreCosts, AreLimits, HasFirst};

use dp_base::NoMemory;
use std::alloc::Global;

/// What no cut is allowed to need.
const MANY: u32 = 9;

/// The units' weights, the limits of replicated stages, and the number of workers of one.
#[derive(Clone, Copy)]
pub struct Costs<'a> {
    pub weights: &'a [u64],
    pub limits: &'a [u32],
    pub workers: u64,
}

/// How many stages are needed from each unit on.
#[derive(Drop)]
pub struct Needs {
    /// Where the stage before is sequential.
    pub after_seq: Vec<u32>,
    /// Where the stage before is replicated or there is none.
    pub after_par: Vec<u32>,
}

/// How many stages are needed from each unit on, where none may cost more than the bound.
pub fn stage_needs(alloc: Global, costs: Costs<'_>, bound: u64) -> Result<Needs, NoMemory>
    requires { AreCosts costs.weights.now costs.limits.now costs.workers }
    ensures length { IfOk result (λ n. (length n.after_seq.items ≡ length costs.entry.weights.now + 1)
        × (length n.after_par.items ≡ length costs.entry.weights.now + 1)) }
    ensures seq { IfOk result (λ n. (carried : List (ℕ × ℕ)) → AreLimits carried costs.entry.limits.now →
        TellsNeed costs.entry.weights.now carried costs.entry.workers bound false 0 n.after_seq.items) }
    ensures par { IfOk result (λ n. (carried : List (ℕ × ℕ)) → AreLimits carried costs.entry.limits.now →
        TellsNeed costs.entry.weights.now carried costs.entry.workers bound true 0 n.after_par.items) }
{
    let count = costs.weights.len();
    let mut after_seq = vec![in alloc; 0; count + 1]?;
    let mut after_par = vec![in alloc; 0; count + 1]?;
    for begin in (0..count).rev() {
        let when_after_seq = need_from(costs, bound, &after_seq, &after_par, begin, false);
        let when_after_par = need_from(costs, bound, &after_seq, &after_par, begin, true);
        after_seq[begin] = when_after_seq;
        after_par[begin] = when_after_par;
    }
    Ok(Needs {
        after_seq,
        after_par,
    })
}

/// How many stages are needed from this unit on.
fn need_from(
    costs: Costs<'_>,
    bound: u64,
    after_seq: &[u32],
    after_par: &[u32],
    begin: usize,
    closed: bool,
) -> u32
    requires costs { AreCosts costs.weights.now costs.limits.now costs.workers }
    requires begin { begin < length costs.weights.now }
    requires seq { length after_seq.now ≡ length costs.weights.now + 1 }
    requires par { length after_par.now ≡ length costs.weights.now + 1 }
    ensures { (most : ℕ) → most ≤ 8 → (result ≤ most) ↔ HasFirst costs.entry.weights.now costs.entry.limits.now costs.entry.workers bound after_seq.now
        after_par.now closed begin (length costs.entry.weights.now) most }
{
    let mut least = MANY;
    let mut weight = 0;
    for last in begin..costs.weights.len() {
        weight += costs.weights[last];
        let end = last + 1;
        let may = may_end(costs, begin, end, closed);
        least = lesser_need(
            least,
            weight,
            costs.workers,
            bound,
            may,
            after_seq[end],
            after_par[end],
        );
    }
    least
}

/// Whether a replicated stage of the units from `begin` up to `end` may stand there.
pub fn may_end(costs: Costs<'_>, begin: usize, end: usize, closed: bool) -> bool
    requires { begin < length costs.limits.now }
    ensures { (result ≡ true) ↔ (closed ≡ false) × (end ≤ slice_index costs.entry.limits.now begin) }
{
    !closed && end <= costs.limits[begin] as usize
}

/// The lesser of what was needed so far, and of what is needed where a stage of this weight comes first.
fn lesser_need(
    least: u32,
    weight: u64,
    workers: u64,
    bound: u64,
    may_replicate: bool,
    after_seq: u32,
    after_par: u32,
) -> u32
    requires workers { 0 < workers }
    requires few { workers < 9 }
    requires weight { weight < 2 ^ 63 }
    ensures few { result ≤ least }
    ensures need { (most : ℕ) → most ≤ 8 → (result ≤ most) ↔ (least ≤ most)
        ⊎ ((replicated : Bool) × StageFits workers bound may_replicate weight after_seq after_par most replicated) }
{
    let mut needed = least;
    if weight <= bound && after_seq < 8 && after_seq + 1 < needed {
        needed = after_seq + 1;
    }
    if may_replicate
        && shared(weight, workers) <= bound
        && after_par < 8
        && after_par + 1 < needed
    {
        needed = after_par + 1;
    }
    needed
}

/// The weight divided by the workers, rounded up.
pub fn shared(weight: u64, workers: u64) -> u64
    requires workers { 0 < workers }
    requires few { workers < 9 }
    requires weight { weight < 2 ^ 63 }
    ensures { result ≡ cost_of workers weight true }
{
    (weight + (workers - 1)) / workers
}
