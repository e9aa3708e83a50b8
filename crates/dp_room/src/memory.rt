//! Want of memory, from the allocator's errors.
ghost use Rattle.std.specs.Prelude.{◌≡◌};

use crate::NoMemory;
use std::alloc::{AllocError, AllocFailed};

impl From<AllocError> for NoMemory {
    ghost use Rattle.dp_room.specs.Memory.{no_memory};

    ghost from_gives = { λ _ e. e ≡ no_memory };

    fn from(_refused: AllocError) -> NoMemory {
        NoMemory
    }
}

/// The value that found no room is dropped.
impl<T: Drop> From<AllocFailed<T>> for NoMemory {
    ghost use Rattle.dp_room.specs.Memory.{no_memory};

    ghost from_gives = { λ _ e. e ≡ no_memory };

    fn from(_refused: AllocFailed<T>) -> NoMemory {
        NoMemory
    }
}
