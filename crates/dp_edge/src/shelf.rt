//! Where texts are read from.
ghost use Rattle.std.specs.Prelude.{◌≡◌, ℕ, ◌+◌, ◌-◌, ◌^◌, ◌<◌, ◌≤◌, List, Option, length, IfOk, IfSome};
ghost use Rattle.std.specs.Option.{option_map};
ghost use Rattle.dp_edge.specs.Shelf.{FaultsAfterRead, names_after_read, OnTooLong, TookBytes, ReadsContent};

use dp_base::NoMemory;
use std::alloc::{AllocError, Global};

/// Why a shelf gives no content.
#[derive(Clone, Copy, Debug, PartialEq, Eq)]
pub enum ShelfFail {
    /// It holds nothing under the name, or reading failed.
    Failed,
    /// The content is longer than the room that was offered.
    TooLong,
    /// Memory was wanting.
    NoMemory,
}

/// A store of named texts, as a folder of files.
///
/// It counts the faults that it meets and the bytes that it takes. Where it tells them, contracts also know what it
/// holds and which reads failed: a store in memory tells both, and files tell nothing.
pub trait Shelf {
    /// The content under each name that has one, where the shelf tells it.
    ghost contents: { Self → Option (List ℕ → Option (List ℕ)) };

    /// The names whose reads failed, oldest first, where the shelf tells them.
    ghost failed_names: { Self → Option (List (List ℕ)) };

    /// How many faults it has met.
    ghost faults: { Self → ℕ };

    /// How many bytes it has taken.
    ghost taken: { Self → ℕ };

    /// The whole content under a name, of at most `room` bytes.
    ///
    /// The room is not reserved: memory is taken as the content comes.
    fn read(&mut self, alloc: Global, name: &str, room: u32) -> Result<Vec<u8>, ShelfFail>
        requires { faults self.old < 2 ^ 64 - 1 }

        // What it holds stays, and so does what it tells.
        ensures contents { contents self.new ≡ contents self.old }
        ensures failed_names { failed_names self.new ≡ option_map (names_after_read result name.now) (failed_names self.old) }

        // A fault is counted with `Failed` and with no other answer.
        ensures faults { FaultsAfterRead result (faults self.old) (faults self.new) }

        // The content is given whole, and refused as too long only after one byte more than there is room for.
        ensures within { IfOk result (λ bytes. length bytes.items ≤ room) }
        ensures content { IfSome (contents self.old) (λ held. ReadsContent result (held name.now) room) }
        ensures taken { taken self.old ≤ taken self.new }
        ensures too_long { OnTooLong result (TookBytes (room + 1) (taken self.old) (taken self.new)) };
}

impl From<NoMemory> for ShelfFail {
    ghost use Rattle.dp_edge.specs.declared.shelf.ShelfFail.TheVariants.{NoMemory};

    ghost from_gives = { λ _ fail. fail ≡ NoMemory };

    fn from(_wanting: NoMemory) -> ShelfFail {
        ShelfFail::NoMemory
    }
}

impl From<AllocError> for ShelfFail {
    ghost use Rattle.dp_edge.specs.declared.shelf.ShelfFail.TheVariants.{NoMemory};

    ghost from_gives = { λ _ fail. fail ≡ NoMemory };

    fn from(_refused: AllocError) -> ShelfFail {
        ShelfFail::NoMemory
    }
}
