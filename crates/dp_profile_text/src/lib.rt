//! The text of a profile: how it is read and written.
#![tactic(auto)]

use dp_base::NoMemory;

mod law;
mod line;
mod read;
mod reader;
mod write;

pub use law::{read_profiles_fit, written_profiles_are_read};
pub use read::read_profile;
pub use write::{put_counts, put_flows, write_profile};

/// Why a text gives no profile.
#[derive(Clone, Copy)]
pub enum ProfileFail {
    /// It isn't in the grammar: the first line, from 1, up to which no text of the grammar begins so.
    Refused { line: u64 },
    /// Memory was wanting.
    NoMemory,
}

impl From<NoMemory> for ProfileFail {
    ghost use Rattle.std.specs.Prelude.{◌≡◌};
    ghost use Rattle.dp_profile_text.specs.declared.ProfileFail.TheVariants.{NoMemory};

    ghost from_gives = { λ _ fail. fail ≡ NoMemory };

    fn from(_wanting: NoMemory) -> ProfileFail {
        ProfileFail::NoMemory
    }
}
