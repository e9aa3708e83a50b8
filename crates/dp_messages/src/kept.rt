//! A sink that keeps the end of what goes through it.
use crate::shown::Shown;
use dp_base::Row;
use dp_edge::{PutFail, Sink};
use std::alloc::Global;

/// At least so many of the last bytes are kept.
const KEPT: usize = 65_536;

/// A sink, and the last bytes that were put to it. Where memory is wanting it keeps none. What is shown of the run for the
/// time being is taken away before it writes.
#[derive(Drop)]
pub struct Kept<'s, 'p, K, P: Print> {
    alloc: Global,
    sink: K,
    shown: &'s Shown<'p, P>,
    tail: Row<u8>,
}

impl<'s, 'p, K, P: Print> Kept<'s, 'p, K, P> {
    ghost use Rattle.std.specs.Prelude.{◌≡◌};

    pub fn new(alloc: Global, sink: K, shown: &'s Shown<'p, P>) -> Kept<'s, 'p, K, P>
        ensures { result.sink ≡ sink }
    {
        Kept {
            alloc,
            sink,
            shown,
            tail: Row::new(alloc),
        }
    }

    /// The last bytes that were put.
    pub fn tail(&self) -> &[u8] {
        self.tail.as_slice()
    }

    /// Keeps the bytes, or the last of them.
    fn keep(&mut self, bytes: &[u8])
        ensures { self.new.sink ≡ self.old.sink }
    {
        if self.tail.len().saturating_add(bytes.len()) > KEPT + KEPT {
            match Row::from_slice(self.alloc, last_of(self.tail.as_slice())) {
                Ok(tail) => self.tail = tail,
                Err(_) => self.tail.clear(),
            }
        }
        if self.tail.extend_from_slice(last_of(bytes)).is_err() {
            self.tail.clear();
        }
    }
}

/// The last bytes, as many as are kept.
fn last_of(bytes: &[u8]) -> &[u8] {
    let from = bytes.len().saturating_sub(KEPT);
    bytes.get(from..).unwrap_or(&[])
}

impl<K: Sink, P: Print> Sink for Kept<'_, '_, K, P> {
    ghost written = { λ kept. K.written kept.sink };

    ghost faults = { λ kept. K.faults kept.sink };

    fn put(&mut self, bytes: &[u8]) -> Result<(), PutFail> {
        self.shown.wipe();
        self.keep(bytes);
        self.sink.put(bytes)
    }
}
