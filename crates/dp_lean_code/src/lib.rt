//! Flat code of a stage's lean text: which code a stage has, what its ops do, one by one, and how it is made. The law is that the code does what the lean turn
//! does.
#![tactic(auto)]

mod access;
mod blocks;
mod close;
mod hiding;
mod kept;
mod law;
mod leaf;
mod needs;
mod program;
mod quiet;
mod silent;
mod site;
mod stage;
mod tables;
mod value;
mod walk;

use dp_base::{Row, SiteId};
use dp_code::Op;
pub use kept::front;
pub use law::lean_code_is_right;
pub use program::lean_program;
pub use site::site_of;
pub use stage::LeanStage;
pub use tables::LeanTables;

/// One operation of a lean text: those that a stage's code has, and what begins and ends a block.
#[derive(Clone, Copy)]
pub enum LeanOp {
    /// An op of other code, where `Consume`, `ConsumePrint` and `ConsumeBranch` take the next of their site's queue.
    Plain(Op),
    /// An own early exit, which goes to `zero` where its value is 0.
    Exit { site: SiteId, zero: u32 },
    /// The begin of an own block, whose sites stay silent up to its finish.
    Begin { site: SiteId },
    Finish,
    /// The net stores of another stage's block.
    Meet { site: SiteId },
}

/// What a stage does in a turn over its lean text.
pub struct LeanProgram {
    pub ops: Row<LeanOp>,
}

// By hand, so that a crate above doesn't prove again how its ops are dropped.
impl Drop for LeanProgram {
    fn drop(self) {
        let LeanProgram { ops: _ } = self;
    }
}
