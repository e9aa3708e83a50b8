//! The least bottleneck.
ghost use Rattle.std.specs.Prelude.{◌≡◌, ◌<◌, ◌^◌, ℕ, List, true, sum, IfOk};
ghost use Rattle.dp_least_cut.specs.steps.Fits.{Fits};
ghost use Rattle.dp_least_cut.specs.steps.Best.{AreCosts, AreLimits};

use crate::needs::{Costs, stage_needs};
use dp_base::NoMemory;
use std::alloc::Global;

/// The least bound that so many stages can keep.
pub fn least_bound(alloc: Global, costs: Costs<'_>, stages: u32) -> Result<u64, NoMemory>
    requires costs { AreCosts costs.weights.now costs.limits.now costs.workers }
    requires some { 0 < stages }
    requires few { stages < 9 }
    ensures keeps { IfOk result (λ bound. (carried : List (ℕ × ℕ)) → AreLimits carried costs.entry.limits.now →
        Fits costs.entry.weights.now carried costs.entry.workers bound stages true 0) }
    ensures least { IfOk result (λ bound. (carried : List (ℕ × ℕ)) → AreLimits carried costs.entry.limits.now → (lower : ℕ) → lower < bound →
        ¬ Fits costs.entry.weights.now carried costs.entry.workers lower stages true 0) }
{
    let mut low = 0;
    let mut high = total(costs.weights);
    while low < high {
        let middle = low + (high - low) / 2;
        let needs = stage_needs(alloc, costs, middle)?;
        if needs.after_par[0] <= stages {
            high = middle;
        } else {
            low = middle + 1;
        }
    }
    Ok(high)
}

/// The sum of the weights.
fn total(weights: &[u64]) -> u64
    requires { sum weights.now < 2 ^ 63 }
    ensures { result ≡ sum weights.now }
{
    weights.iter().sum()
}
