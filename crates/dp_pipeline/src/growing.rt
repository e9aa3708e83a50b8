//! How many iterations go together.
ghost use Rattle.std.specs.Prelude.{◌≡◌, ◌≤◌, ◌<◌, ◌+◌, ◌-◌, ◌^◌};
ghost use Rattle.dp_pipeline.specs.steps.Supplying.{size_at};

/// How many iterations go together from the next one on: as many as there were before it in the epoch, one at least, and none
/// above the fuel's number.
pub(crate) fn next_size(first: u64, next: u64, fuel: u64, cap: u64) -> u64
    requires begun { first ≤ next }
    requires fuel { (next ≤ fuel) × (fuel < 2 ^ 64 - 1) }
    ensures size { result ≡ size_at first next fuel cap }
    ensures some { 1 ≤ result }
    ensures within { next + result ≤ fuel + 1 }
{
    let before = cap.min(next - first);
    (fuel + 1 - next).min(before.max(1))
}
