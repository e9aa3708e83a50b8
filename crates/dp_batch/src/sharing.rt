//! How the inputs share the processors.
ghost use Rattle.std.specs.Prelude.{◌≡◌, ◌≤◌, nat_lt};

use dp_plan::{Plan, StageKind};
use dp_run::CrewSize;
use dp_run_plan::RunRegion;
use std::thread::{Threads, available_parallelism};

/// So many processors are shared where the system doesn't tell how many there are.
const PROCESSORS: usize = 4;

/// The threads of a run besides those of its stages: the judge's, and the one that commits.
const OTHERS: usize = 2;

/// How many runs go on at once, and who runs the units of each.
#[derive(Clone, Copy)]
pub(crate) struct Sharing {
    pub(crate) at_once: usize,
    pub(crate) size: CrewSize,
}

/// How many processors there are.
pub(crate) fn processors<R: Threads>(rt: &R) -> usize
    ensures { 1 ≤ result }
{
    match available_parallelism(rt) {
        Ok(count) => count.get(),
        Err(_) => PROCESSORS,
    }
}

/// Shares the processors among the runs.
///
/// Where there is a run for each processor, each keeps to one thread: so none waits for another, and nothing is sent from
/// one processor to the next. Where there are fewer, runs have threads for their units, and as many go on at once as there
/// are processors for.
pub(crate) fn share(
    processors: usize,
    runs: usize,
    regions: &[RunRegion<'_>],
    size: CrewSize,
) -> Sharing
    requires { 1 ≤ processors }
    ensures some { 1 ≤ result.at_once }
    ensures many { processors ≤ runs → result.at_once ≡ processors }
    ensures threads { result.size.threads ≡ nat_lt runs processors }
    ensures size { (result.size.workers ≡ size.workers) × (result.size.lane ≡ size.lane) }
{
    let threads = runs < processors;
    let at_once = if threads {
        (processors / most_threads(regions, size.workers)).max(1)
    } else {
        processors
    };
    let CrewSize { workers, lane, .. } = size;
    let size = CrewSize {
        workers,
        lane,
        threads,
    };
    Sharing { at_once, size }
}

/// The most threads that a run has at once.
fn most_threads(regions: &[RunRegion<'_>], workers: u32) -> usize
    ensures { 1 ≤ result }
{
    let mut most = OTHERS;
    for region in regions {
        most = most.max(threads_of(region.plan(), workers));
    }
    most
}

/// The threads of a run within the plan's region.
fn threads_of(plan: &Plan, workers: u32) -> usize {
    let mut threads = OTHERS;
    for kind in plan.stages.as_slice() {
        threads = threads.saturating_add(units_of(*kind, workers));
    }
    threads
}

/// How many units run a stage of this kind.
fn units_of(kind: StageKind, workers: u32) -> usize {
    match kind {
        StageKind::Seq => 1,
        StageKind::Par => workers as usize,
    }
}
