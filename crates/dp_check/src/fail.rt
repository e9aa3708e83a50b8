//! Why a tree is refused.

use dp_base::{NoMemory, Quantity};
use std::alloc::AllocError;

/// Why a tree is no program. A line is that of the offending name; for one name the first of the causes, in this order,
/// is given.
#[derive(Clone, Copy)]
pub enum CheckFail {
    /// A name that is used is no visible variable, or a name that is called no visible function.
    Unknown { line: u32 },
    /// A name that is declared is visible already.
    Twice { line: u32 },
    /// A scalar has an index.
    NotArray { line: u32 },
    /// An array stands without an index.
    NotScalar { line: u32 },
    /// A call has another number of arguments than its function has parameters.
    Arguments { line: u32 },
    /// What the program can only read is assigned.
    ReadOnly { line: u32 },
    /// A count is above its limit. One above 1,000,000 is given as 1,000,000.
    Limit { quantity: Quantity, count: u32 },
    NoMemory,
}

impl From<NoMemory> for CheckFail {
    ghost use Rattle.std.specs.Prelude.{◌≡◌};
    ghost use Rattle.dp_check.specs.declared.fail.CheckFail.TheVariants.{NoMemory};

    ghost from_gives = { λ _ e. e ≡ NoMemory };

    fn from(_: NoMemory) -> CheckFail {
        CheckFail::NoMemory
    }
}

impl From<AllocError> for CheckFail {
    ghost use Rattle.std.specs.Prelude.{◌≡◌};
    ghost use Rattle.dp_check.specs.declared.fail.CheckFail.TheVariants.{NoMemory};

    ghost from_gives = { λ _ e. e ≡ NoMemory };

    fn from(_: AllocError) -> CheckFail {
        CheckFail::NoMemory
    }
}
