//! Why a text gives no tree.

ghost use Rattle.std.specs.Prelude.{◌≡◌};
ghost use Rattle.dp_parse.specs.declared.fail.ParseFail.TheVariants.{NoMemory as FailWanting};

use dp_base::{NoMemory, Quantity};

/// Why a text isn't read.
#[derive(Clone, Copy)]
pub enum ParseFail {
    /// No token begins at this place of the text, counted in bytes from 0.
    Lex { place: u32 },
    /// The text nests too deep: the first count that is above its number.
    TooDeep { quantity: Quantity, count: u32 },
    /// The grammar derives nothing from the tokens. The token, counted from 0, is the first one that no program has
    /// behind those before it, or the number of tokens where more of them have to follow.
    Refused { token: u32 },
    NoMemory,
}

impl From<NoMemory> for ParseFail {
    ghost from_gives = { λ _ e. e ≡ FailWanting };

    fn from(_: NoMemory) -> ParseFail {
        ParseFail::NoMemory
    }
}
