//! A sink in memory.
use crate::sink::{PutFail, Sink};
use dp_base::Row;
use std::alloc::Global;
use std::marker::Model;

/// A sink in memory, with room for a stated number of bytes or for any number. It tells its bytes.
#[derive(Drop)]
pub struct MemSink {
    bytes: Row<u8>,
    left: Option<u64>,
    faults: u64,
}

impl Model for MemSink {
    ghost use Rattle.dp_edge.specs.MemSink.{Basin};

    ghost Value = { Basin };

    ghost view = { λ sink. record { bytes = sink.bytes; left = sink.left; faults = sink.faults } };
}

impl MemSink {
    ghost use Rattle.std.specs.Prelude.{◌≡◌, []};
    ghost use Rattle.dp_edge.specs.MemSink.{Basin};

    /// An empty sink with room for so many bytes, or for any number.
    pub fn new(alloc: Global, room: Option<u64>) -> MemSink
        ensures { result ≡ record { bytes = []; left = room; faults = 0 } }
    {
        MemSink {
            bytes: Row::new(alloc),
            left: room,
            faults: 0,
        }
    }

    /// All bytes that were put so far.
    pub fn bytes(&self) -> &[u8]
        ensures { result.now ≡ self.now.bytes }
    {
        self.bytes.as_slice()
    }
}

impl Sink for MemSink {
    ghost use Rattle.std.specs.Prelude.{◌≡◌, ◌-◌, ◌^◌, ◌<◌, Some};
    ghost use Rattle.dp_edge.specs.Sink.{FaultsAfterPut, Puts};
    ghost use Rattle.dp_edge.specs.MemSink.{AnswersPut, after_put};

    ghost written = { λ sink. Some sink.bytes };

    ghost faults = { λ sink. sink.faults };

    fn put(&mut self, bytes: &[u8]) -> Result<(), PutFail>
        requires { self.old.faults < 2 ^ 64 - 1 }
        ensures answer { AnswersPut result self.old bytes.now }
        ensures after { self.new ≡ after_put result self.old bytes.now }
    {
        let Some(left) = self.left else {
            self.bytes.extend_from_slice(bytes)?;
            return Ok(());
        };
        if left < bytes.len() as u64 {
            self.bytes.extend_from_slice(&bytes[..left as usize])?;
            self.left = Some(0);
            self.faults += 1;
            return Err(PutFail::Failed);
        }
        self.bytes.extend_from_slice(bytes)?;
        self.left = Some(left - bytes.len() as u64);
        Ok(())
    }
}
