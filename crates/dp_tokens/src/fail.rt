//! Why a part of a program isn't read.

ghost use Rattle.std.specs.Prelude.{◌≡◌};
ghost use Rattle.dp_tokens.specs.declared.fail.PartFail.TheVariants.{NoMemory as Wanting};

use dp_base::NoMemory;

/// Why a part of a program isn't read from the front of the tokens.
#[derive(Clone, Copy)]
pub enum PartFail {
    /// The next token fits nowhere.
    Refused,
    NoMemory,
}

impl From<NoMemory> for PartFail {
    ghost from_gives = { λ _ e. e ≡ Wanting };

    fn from(_: NoMemory) -> PartFail {
        PartFail::NoMemory
    }
}
