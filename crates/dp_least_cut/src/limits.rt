//! How far a replicated stage may reach.
ghost use Rattle.std.specs.Prelude.{◌≡◌, ◌<◌, ◌≤◌, ℕ, length, IfOk, slice_index};
ghost use Rattle.dp_least_cut.specs.steps.Fits.{IsLimit};

use dp_base::NoMemory;
use std::alloc::Global;

/// For each unit the largest end of a stretch that begins there and has no carried edge inside.
pub fn limits(alloc: Global, count: u32, carried: &[(u32, u32)]) -> Result<Vec<u32>, NoMemory>
    ensures length { IfOk result (λ v. length v.items ≡ count) }
    ensures limits { IfOk result (λ v. (begin : ℕ) → begin < count → IsLimit carried.now count begin (slice_index v.items begin)) }
{
    let mut limits = Vec::with_capacity(alloc, count as usize)?;
    for begin in 0..count {
        limits.push(limit_from(carried, count, begin))?;
    }
    Ok(limits)
}

/// The largest end of a stretch from `begin` on that has no carried edge inside.
fn limit_from(carried: &[(u32, u32)], count: u32, begin: u32) -> u32
    ensures { IsLimit carried.now count begin result }
{
    let mut limit = count;
    for (from, to) in carried {
        limit = lesser_limit(limit, begin, *from, *to);
    }
    limit
}

/// The limit, and no more than the edge's last end where both are from `begin` on.
fn lesser_limit(limit: u32, begin: u32, from: u32, to: u32) -> u32
    ensures least { (end : ℕ) → end ≤ result → (end ≤ limit) × ¬ ((begin ≤ from) × (from < end) × (begin ≤ to) × (to < end)) }
    ensures most { (end : ℕ) → end ≤ limit → ¬ ((begin ≤ from) × (from < end) × (begin ≤ to) × (to < end)) → end ≤ result }
{
    if begin > from || begin > to || (limit <= from || limit <= to) {
        return limit;
    }
    if from < to { to } else { from }
}
