//! The text of plans: how it is read and written, and the nine rules that what is read has to keep.
#![tactic(auto)]

use dp_base::{NoMemory, Row, SiteId};
use dp_plan::WrittenPlan;

mod conditions;
mod law;
mod least;
mod line;
mod read;
mod reader;
mod rules;
mod text;
mod write;

pub use law::{read_plans_are_plans, written_plans_are_read};
pub use read::read_plans;
pub use write::write_plans;

/// The plans of a text, which need not fit the program.
#[derive(Drop)]
pub struct WrittenPlans {
    /// The text is of version 2.
    pub proved: bool,
    pub plans: Row<WrittenPlan>,
}

/// Why a text gives no plans.
#[derive(Clone, Copy)]
pub enum PlanFail {
    /// It isn't in the grammar: the first line, from 1, up to which no text of the grammar begins so.
    Refused { line: u64 },
    /// A rule fails, with the site that it names.
    Invalid { rule: u32, site: SiteId },
    /// Memory was wanting.
    NoMemory,
}

impl From<NoMemory> for PlanFail {
    ghost use Rattle.std.specs.Prelude.{◌≡◌};
    ghost use Rattle.dp_plan_text.specs.declared.PlanFail.TheVariants.{NoMemory};

    ghost from_gives = { λ _ fail. fail ≡ NoMemory };

    fn from(_wanting: NoMemory) -> PlanFail {
        PlanFail::NoMemory
    }
}
