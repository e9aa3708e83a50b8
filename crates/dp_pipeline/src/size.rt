//! How large a crew is.
ghost use Rattle.std.specs.Prelude.{◌≡◌, ◌≤◌};

/// How many workers a replicated stage has, how many items a lane holds, and who runs the units.
#[derive(Clone, Copy)]
pub struct CrewSize {
    /// From 1 to 8.
    pub workers: u32,
    /// From 1 to 64.
    pub lane: u32,
    /// Whether each unit may have a thread of its own; else the calling thread polls all units in turn.
    pub threads: bool,
    ghost some_workers: { 1 ≤ workers },
    ghost few_workers: { workers ≤ 8 },
    ghost some_room: { 1 ≤ lane },
    ghost little_room: { lane ≤ 64 },
}

impl CrewSize {
    pub fn new(workers: u32, lane: u32, threads: bool) -> CrewSize
        requires workers { (1 ≤ workers) × (workers ≤ 8) }
        requires lane { (1 ≤ lane) × (lane ≤ 64) }
        ensures { (result.workers ≡ workers) × (result.lane ≡ lane) × (result.threads ≡ threads) }
    {
        CrewSize {
            workers,
            lane,
            threads,
        }
    }
}
