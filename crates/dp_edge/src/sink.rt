//! Where bytes are written.
ghost use Rattle.std.specs.Prelude.{◌≡◌, ℕ, ◌-◌, ◌^◌, ◌<◌, List, Option};
ghost use Rattle.dp_edge.specs.Sink.{FaultsAfterPut, Puts};

use dp_base::NoMemory;
use std::alloc::AllocError;

/// Why a sink didn't take all bytes.
#[derive(Clone, Copy, Debug)]
pub enum PutFail {
    /// Writing failed.
    Failed,
    /// Memory was wanting, and no byte was taken.
    NoMemory,
}

/// A place for bytes, as a program's output.
///
/// It counts the faults that it meets. Where it tells them, contracts also know the bytes that it took.
pub trait Sink {
    /// All bytes that were put so far, where the sink tells them.
    ghost written: { Self → Option (List ℕ) };

    /// How many faults it has met.
    ghost faults: { Self → ℕ };

    /// Appends the bytes.
    fn put(&mut self, bytes: &[u8]) -> Result<(), PutFail>
        requires { faults self.old < 2 ^ 64 - 1 }

        // A fault is counted with `Failed` and with no other answer.
        ensures faults { FaultsAfterPut result (faults self.old) (faults self.new) }

        // All bytes are appended, or some from the front where it failed, or none where memory was wanting.
        ensures written { Puts result bytes.now (written self.old) (written self.new) };
}

impl From<NoMemory> for PutFail {
    ghost use Rattle.dp_edge.specs.declared.sink.PutFail.TheVariants.{NoMemory};

    ghost from_gives = { λ _ fail. fail ≡ NoMemory };

    fn from(_wanting: NoMemory) -> PutFail {
        PutFail::NoMemory
    }
}

impl From<AllocError> for PutFail {
    ghost use Rattle.dp_edge.specs.declared.sink.PutFail.TheVariants.{NoMemory};

    ghost from_gives = { λ _ fail. fail ≡ NoMemory };

    fn from(_refused: AllocError) -> PutFail {
        PutFail::NoMemory
    }
}
