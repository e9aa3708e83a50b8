//! The text of a list of names, each on a line of its own, and how it is read.
#![tactic(auto)]

use dp_room::NoMemory;

mod names;
mod read;

pub use names::name_text;
pub use read::read_list;

/// Why a text gives no list.
#[derive(Clone, Copy)]
pub enum ListFail {
    /// It isn't in the grammar: the first line, from 1, up to which no text of the grammar begins so.
    Refused { line: u32 },
    /// Memory was wanting.
    NoMemory,
}

impl From<NoMemory> for ListFail {
    ghost use Rattle.std.specs.Prelude.{◌≡◌};
    ghost use Rattle.dp_list.specs.declared.ListFail.TheVariants.{NoMemory};

    ghost from_gives = { λ _ fail. fail ≡ NoMemory };

    fn from(_wanting: NoMemory) -> ListFail {
        ListFail::NoMemory
    }
}
