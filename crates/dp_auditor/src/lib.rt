//! An audit: whether a log is that of the source's run under its plans. It follows the source alone, event by event, and decides
//! from what each stage would see which iterations a pipeline has to execute again; no stage runs.
#![tactic(auto)]

mod comparing;
mod iterations;
mod lines;
mod parts;
mod watching;
mod whole;

pub use whole::audit;

/// What an audit answers.
#[derive(Clone, Copy)]
pub enum AuditEnd {
    /// The log is that of the run.
    Same,
    /// It isn't: this line, from 1, is the first that isn't the same in both.
    Differs { line: u32 },
}
