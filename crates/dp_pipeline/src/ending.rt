//! Which batches and verdicts are the last of their epoch.
ghost use Rattle.std.specs.Prelude.{◌≡◌, ◌-◌, not, ◌&&◌, nat_le};
ghost use Rattle.dp_judge.specs.Decided.{left_to_give};
ghost use Rattle.dp_pipeline.specs.Carried.{all_onward, is_going_on};

use dp_judge::ToldBatch;
use dp_lean_machine::{BatchStatus, LeanBatch};

/// The epoch goes on behind a batch that stands so, as far as the stages know.
fn goes_on(status: BatchStatus) -> bool
    ensures { result ≡ is_going_on status }
{
    match status {
        BatchStatus::Going => true,
        BatchStatus::Closing => false,
        BatchStatus::Void => false,
        BatchStatus::NoMemory => false,
    }
}

/// No batch follows this one.
pub(crate) fn is_last_batch(batch: &LeanBatch<'_>, fuel: u64) -> bool
    ensures { result ≡ not (is_going_on batch.now.status && nat_le batch.now.iterations (fuel - batch.now.first)) }
{
    let left = fuel.saturating_sub(batch.first());
    !(goes_on(batch.status()) && batch.iterations() as u64 <= left)
}

/// No verdict follows these on this batch.
pub(crate) fn is_last_told(batch: &LeanBatch<'_>, told: &ToldBatch) -> bool
    ensures { result ≡ not (is_going_on batch.now.status && all_onward (left_to_give told.now)) }
{
    !(goes_on(batch.status()) && told.goes_on())
}
