//! The leaders that may be taken.
ghost use Rattle.std.specs.Prelude.{◌≡◌, ◌≢◌, ◌⊎◌, ◌+◌, ◌<◌, ◌≤◌, ℕ, length, slice_index, IfOk, OnOk};
ghost use Rattle.dp_units.specs.steps.Entries.{At, Has, times};

use dp_room::NoMemory;
use std::alloc::Global;
use std::collections::BTreeSet;

/// The leaders that wait for none.
pub fn first_free(
    alloc: Global,
    count: u32,
    leader_of: &[u32],
    waits: &[usize],
) -> Result<BTreeSet<u32>, NoMemory>
    requires leaders { length leader_of.now ≡ count }
    requires waits { length waits.now ≡ count }
    ensures leader { IfOk result (λ free. (node : ℕ) → Has free.keys node → (node < count) × (slice_index leader_of.now node ≡ node)
        × (slice_index waits.now node ≡ 0)) }
    ensures all { IfOk result (λ free. (node : ℕ) → node < count → slice_index leader_of.now node ≡ node → slice_index waits.now node ≡ 0 →
        Has free.keys node) }
{
    let mut free = BTreeSet::new(alloc);
    for node in 0..count {
        if leader_of[node as usize] == node {
            offer(&mut free, node, waits[node as usize])?;
        }
    }
    Ok(free)
}

/// The nodes of a row wait for an edge less each time that they stand in it. Those that then wait for none are free.
pub fn release(waits: &mut [usize], free: &mut BTreeSet<u32>, row: &[u32]) -> Result<(), NoMemory>
    requires within { (i node : ℕ) → At row.now i node → node < length waits.old }
    requires enough { (node : ℕ) → node < length waits.old → times row.now node ≤ slice_index waits.old node }
    ensures less { OnOk result ((node : ℕ) → node < length waits.old → slice_index waits.new node + times row.now node ≡ slice_index waits.old node) }
    ensures from { OnOk result ((node : ℕ) → Has free.new.keys node → Has free.old.keys node ⊎ ((times row.now node ≢ 0) × (slice_index waits.new node ≡ 0))) }
    ensures kept { OnOk result ((node : ℕ) → Has free.old.keys node → Has free.new.keys node) }
    ensures added { OnOk result ((node : ℕ) → times row.now node ≢ 0 → slice_index waits.new node ≡ 0 → Has free.new.keys node) }
{
    for node in row {
        waits[*node as usize] -= 1;
        offer(free, *node, waits[*node as usize])?;
    }
    Ok(())
}

/// The node is free if it waits for none.
fn offer(free: &mut BTreeSet<u32>, node: u32, waits: usize) -> Result<(), NoMemory>
    ensures from { OnOk result ((other : ℕ) → Has free.new.keys other → Has free.old.keys other ⊎ ((other ≡ node) × (waits ≡ 0))) }
    ensures kept { OnOk result ((other : ℕ) → Has free.old.keys other → Has free.new.keys other) }
    ensures added { OnOk result (waits ≡ 0 → Has free.new.keys node) }
{
    if waits == 0 {
        free.insert(node)?;
    }
    Ok(())
}
