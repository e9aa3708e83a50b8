//! Why a program isn't expanded.

use dp_base::{NoMemory, Quantity};

/// Why a program isn't expanded.
#[derive(Clone, Copy)]
pub enum InlineFail {
    /// A count is above its limit. One above 1,000,000 is given as 1,000,000.
    Limit { quantity: Quantity, count: u32 },
    NoMemory,
}

impl From<NoMemory> for InlineFail {
    ghost use Rattle.std.specs.Prelude.{◌≡◌};
    ghost use Rattle.dp_inline.specs.declared.fail.InlineFail.TheVariants.{NoMemory};

    ghost from_gives = { λ _ e. e ≡ NoMemory };

    fn from(_: NoMemory) -> InlineFail {
        InlineFail::NoMemory
    }
}
