//! The files that words name.
use dp_refusal::Role;
use dp_words::{PlanSource, PlanWords, RunWords, Task};

/// The names of a task's files, where it has them.
#[derive(Clone, Copy)]
pub struct Files<'w> {
    pub program: Option<&'w str>,
    pub input: Option<&'w str>,
    pub list: Option<&'w str>,
    pub plans: Option<&'w str>,
    pub profile: Option<&'w str>,
    pub log: Option<&'w str>,
    pub checkpoint: Option<&'w str>,
}

impl<'w> Files<'w> {
    /// The name of the file with this role.
    pub fn name(self, role: Role) -> Option<&'w str> {
        match role {
            Role::Program => self.program,
            Role::Input => self.input,
            Role::List => self.list,
            Role::Plan => self.plans,
            Role::Profile => self.profile,
            Role::Log => self.log,
            Role::Checkpoint => self.checkpoint,
        }
    }
}

/// The files of a task.
pub fn files_of<'w>(task: &Task<'w>) -> Files<'w> {
    match task {
        Task::Run(run) => run_files(*run),
        Task::Plan(plan) => plan_files(*plan),
        Task::Explain(plan) => plan_files(*plan),
        Task::Check(program) => program_file(program),
        Task::Tree(program) => program_file(program),
        Task::Profile(profile) => Files {
            input: profile.input,
            ..program_file(profile.program)
        },
        Task::Gen(_) => NO_FILES,
        Task::Log(run) => run_files(*run),
        Task::Audit(run, log) => Files {
            log: Some(log),
            ..run_files(*run)
        },
        Task::Save(run, _) => run_files(*run),
        Task::Resume(run, checkpoint) => Files {
            checkpoint: Some(checkpoint),
            ..run_files(*run)
        },
        Task::Batch(run, list) => Files {
            list: Some(list),
            ..run_files(*run)
        },
    }
}

/// The steps that a task's run may make, where the words give them.
pub fn fuel_of(task: &Task<'_>) -> Option<u64> {
    match task {
        Task::Run(run) => Some(run.fuel),
        Task::Log(run) => Some(run.fuel),
        Task::Save(run, _) => Some(run.fuel),
        Task::Profile(profile) => Some(profile.fuel),
        Task::Plan(_)
        | Task::Explain(_)
        | Task::Check(_)
        | Task::Tree(_)
        | Task::Gen(_)
        | Task::Audit(_, _)
        | Task::Resume(_, _)
        | Task::Batch(_, _) => None,
    }
}

/// Whether a task's run lists causes.
pub fn lists_causes(task: &Task<'_>) -> bool {
    match task {
        Task::Run(run) => run.why,
        _ => false,
    }
}

const NO_FILES: Files<'static> = Files {
    program: None,
    input: None,
    list: None,
    plans: None,
    profile: None,
    log: None,
    checkpoint: None,
};

fn program_file(program: &str) -> Files<'_> {
    Files {
        program: Some(program),
        ..NO_FILES
    }
}

fn plan_files(plan: PlanWords<'_>) -> Files<'_> {
    Files {
        profile: plan.profile,
        ..program_file(plan.program)
    }
}

fn run_files(run: RunWords<'_>) -> Files<'_> {
    let files = Files {
        input: run.input,
        ..program_file(run.program)
    };
    match run.source {
        PlanSource::Named(name) => Files {
            plans: Some(name),
            ..files
        },
        PlanSource::Least(profile) => Files { profile, ..files },
    }
}
