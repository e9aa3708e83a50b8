//! The terminal symbols of the grammar, and a cursor over the tokens of a text.
#![tactic(auto)]

mod fail;
mod leaf;
mod symbol;
mod tokens;

pub use fail::PartFail;
pub use leaf::{name, negated, number, sees_zero};
pub use symbol::{Symbol, symbol_of};
pub use tokens::Tokens;
