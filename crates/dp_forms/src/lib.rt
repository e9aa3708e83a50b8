//! The forms of native code. A program is a type that is composed of them, and its code is what the compiler makes of that type.
//! Each form is proved once, whatever it is composed of.
#![tactic(auto)]

mod arithmetic;
mod choices;
mod codes;
mod composed;
mod home;
mod loops;
mod memory;
mod operands;
mod operators;
mod sequence;
mod state;
mod statements;
#[cfg(test)]
mod tests;
mod values;

pub use arithmetic::{Binary, Operator, Prefix, Unary};
pub use choices::{And, If, Or};
pub use codes::Code;
pub use composed::Composed;
pub use loops::{Outermost, While};
pub use operands::{Element, InputLen, Number, Scalar, Word};
pub use operators::{Add, Div, Eq, Ge, Gt, Le, Lt, Mul, Ne, Neg, Not, Rem, Sub};
pub use sequence::{Nothing, Other, Then};
pub use state::State;
pub use statements::{Put, Say, Set};
pub use values::Value;
