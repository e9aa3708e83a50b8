//! What native code of a program is made of, and how it takes the machine's place.
#![tactic(auto)]

mod native;
mod operations;
mod program;

pub use native::Native;
pub use operations::{
    add, div, element, eq_value, ge_value, gt_value, holds, le_value, length_of, lt_value, mul,
    ne_value, neg, rem, say, sub,
};
pub use program::NativeProgram;
