//! A sink for what a log doesn't tell.
use dp_edge::{PutFail, Sink};

/// Drops all bytes, and tells nothing of them.
#[derive(Drop)]
pub(crate) struct Nowhere;

impl Sink for Nowhere {
    ghost use Rattle.std.specs.Prelude.{None};

    ghost written = { λ _. None };

    ghost faults = { λ _. 0 };

    fn put(&mut self, _bytes: &[u8]) -> Result<(), PutFail> {
        Ok(())
    }
}
