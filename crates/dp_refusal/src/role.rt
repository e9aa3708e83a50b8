//! What a text is for that the words name.
ghost use Rattle.std.specs.Prelude.{◌≡◌, IfOk, string_bytes};
ghost use Rattle.dp_words.specs.Run.{shown_source};
ghost use Rattle.dp_refusal.specs.Refusal.{plans_role as plans_role};

use dp_base::NoMemory;
use dp_words::PlanSource;
use std::alloc::Global;

/// What a text is for that is read.
#[derive(Clone, Copy)]
pub enum Role {
    Program,
    /// The numbers of a run, whether the words name them or a list does.
    Input,
    /// The names of many inputs.
    List,
    Plan,
    Profile,
    /// The commits of a run, to be compared with those of the source.
    Log,
    /// Where a run was saved, and is to go on.
    Checkpoint,
}

impl Role {
    ghost use Rattle.dp_refusal.specs.Refusal.{role_name, failed_read_line};

    fn name(self) -> &'static str
        ensures { result.now ≡ role_name self }
    {
        match self {
            Role::Program => "program",
            Role::Input => "input",
            Role::List => "list",
            Role::Plan => "plan",
            Role::Profile => "profile",
            Role::Log => "log",
            Role::Checkpoint => "checkpoint",
        }
    }

    /// The line that is written where the text couldn't be read.
    pub fn failed_read_line(self, alloc: Global) -> Result<String, NoMemory>
        ensures { IfOk result (λ text. string_bytes text ≡ failed_read_line self) }
    {
        let name = self.name();
        let text = format!(in alloc; "failed read {name}\n")?;
        Ok(text)
    }
}

/// What the text is for that plans rest on.
pub fn role_of(source: PlanSource<'_>) -> Role
    ensures { result ≡ plans_role (shown_source source.entry) }
{
    match source {
        PlanSource::Named(_) => Role::Plan,
        PlanSource::Least(_) => Role::Profile,
    }
}
