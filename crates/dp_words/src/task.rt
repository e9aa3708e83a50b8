//! What may be asked for.

/// How automatic plans are made.
#[derive(Clone, Copy)]
pub struct PlanOptions {
    /// Up to how many loads in a thousand runs are rare, up to 1,000.
    pub rate: u32,
    /// The most stages of a region, from 1 to 8.
    pub stages: u32,
    /// The workers of a replicated stage, from 1 to 8.
    pub workers: u32,
}

/// Where a run's plans come from.
#[derive(Clone, Copy)]
pub enum PlanSource<'w> {
    /// The text of this name.
    Named(&'w str),
    /// They are the least ones, by the profile of this name, if there is one.
    Least(Option<&'w str>),
}

/// A run that was asked for. Each option that wasn't given has its default.
#[derive(Clone, Copy)]
pub struct RunWords<'w> {
    /// The name of the program's text.
    pub program: &'w str,
    /// The name of the input's text, if there is one.
    pub input: Option<&'w str>,
    pub source: PlanSource<'w>,
    /// How least plans are made; where a text of plans is named, only the workers count.
    pub options: PlanOptions,
    /// The places of a lane, from 1 to 64.
    pub lane: u32,
    /// The greatest number of steps, up to 1,000,000,000.
    pub fuel: u64,
    /// Whether the text says why iterations were executed again.
    pub why: bool,
}

/// The automatic plans that were asked for.
#[derive(Clone, Copy)]
pub struct PlanWords<'w> {
    /// The name of the program's text.
    pub program: &'w str,
    /// The name of the profile's text, if there is one.
    pub profile: Option<&'w str>,
    pub options: PlanOptions,
}

/// A profile that was asked for.
#[derive(Clone, Copy)]
pub struct ProfileWords<'w> {
    /// The name of the program's text.
    pub program: &'w str,
    /// The name of the input's text.
    pub input: Option<&'w str>,
    /// The greatest number of steps.
    pub fuel: u64,
}

/// A run of the made program that was asked for.
#[derive(Clone, Copy)]
pub struct GenWords {
    /// The number that the words of its input come from, below 2,147,483,648.
    pub seed: u32,
    /// How many words there are, from 1 to 65,536.
    pub size: u32,
    /// How its plan is made: the words give the workers alone.
    pub options: PlanOptions,
    /// The places of a lane, from 1 to 64.
    pub lane: u32,
    /// The greatest number of steps.
    pub fuel: u64,
}

/// The largest number of a region.
pub const REGION: u32 = 4_294_967_295;

/// Where a run is to be saved.
#[derive(Clone, Copy)]
pub struct Place {
    /// The number of a region, from 1.
    pub region: u32,
    /// How many of its iterations come before, up to 1,000,000,000.
    pub after: u64,
}

/// What the program is asked to do.
#[derive(Clone, Copy)]
pub enum Task<'w> {
    Run(RunWords<'w>),
    /// To write the program's automatic plans.
    Plan(PlanWords<'w>),
    /// To tell why the program's automatic plans are as they are.
    Explain(PlanWords<'w>),
    /// To list the sites of the program with this name.
    Check(&'w str),
    /// To write the program with this name as a tree.
    Tree(&'w str),
    /// To write what a run shows.
    Profile(ProfileWords<'w>),
    /// To make a program with its input, and to run it.
    Gen(GenWords),
    /// To write the log of a run.
    Log(RunWords<'w>),
    /// To tell whether the log with this name is that of the run.
    Audit(RunWords<'w>, &'w str),
    /// To run up to this place, and to save the run there.
    Save(RunWords<'w>, Place),
    /// To go on from the checkpoint with this name. The fuel is the checkpoint's, and that of the words has no meaning.
    Resume(RunWords<'w>, &'w str),
    /// To run the program on each input that the list with this name has.
    Batch(RunWords<'w>, &'w str),
}
