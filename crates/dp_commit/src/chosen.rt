//! By which plans a region's iterations were run.
ghost use Rattle.std.specs.Prelude.{◌≡◌, ◌+◌};
ghost use Rattle.dp_commit.specs.Counted.{held_count, none_chosen, none_ran};

/// What was run by one plan.
#[derive(Clone, Copy)]
pub struct Ran {
    /// How many iterations were committed.
    pub iterations: u64,
    /// From how many epochs.
    pub epochs: u64,
    /// How long these lasted.
    pub nanoseconds: u64,
}

impl Ran {
    /// Nothing.
    pub fn nothing() -> Ran
        ensures { result ≡ none_ran }
    {
        Ran {
            iterations: 0,
            epochs: 0,
            nanoseconds: 0,
        }
    }

    /// Both together.
    pub fn and(self, more: Ran) -> Ran
        ensures iterations { result.iterations ≡ held_count (self.iterations + more.iterations) }
        ensures epochs { result.epochs ≡ held_count (self.epochs + more.epochs) }
        ensures nanoseconds { result.nanoseconds ≡ held_count (self.nanoseconds + more.nanoseconds) }
    {
        Ran {
            iterations: self.iterations.saturating_add(more.iterations),
            epochs: self.epochs.saturating_add(more.epochs),
            nanoseconds: self.nanoseconds.saturating_add(more.nanoseconds),
        }
    }
}

/// By which plans the iterations of a region were run, from its entry to its end.
#[derive(Clone, Copy)]
pub struct Chosen {
    /// By the one-stage form of its plan.
    pub one_stage: Ran,
    /// By a plan that keeps inner loops whole.
    pub whole_loops: Ran,
    /// By its own plan.
    pub own: Ran,
    /// How many iterations were executed again.
    pub again: u64,
    /// How often an epoch was by another plan than the one before.
    pub switches: u64,
    /// How long all lasted.
    pub nanoseconds: u64,
}

impl Chosen {
    /// Nothing.
    pub fn nothing() -> Chosen
        ensures { result ≡ none_chosen }
    {
        Chosen {
            one_stage: Ran::nothing(),
            whole_loops: Ran::nothing(),
            own: Ran::nothing(),
            again: 0,
            switches: 0,
            nanoseconds: 0,
        }
    }
}
