//! A place that each stage run passes as it begins.

/// What a unit with a thread of its own calls at the start of each stage run. A unit that its caller polls doesn't.
/// Nothing that is proved depends on it: a test uses it to hold one stage until another has come.
pub trait Gate: Sync {
    /// The stage counts from 1, the iteration from 0.
    fn enter(&self, stage: u32, iteration: u64);
}

/// The gate that lets all through at once.
#[derive(Clone, Copy)]
pub struct OpenGate;

impl Gate for OpenGate {
    fn enter(&self, _stage: u32, _iteration: u64) {}
}
