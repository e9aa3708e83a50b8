//! Standard output as a sink.
ghost use Rattle.std.specs.Prelude.{ℕ, take, OnOk, OnErr};
ghost use Rattle.std.specs.Io.KnownBytes.{Appends};

use dp_edge::{PutFail, Sink};
use std::io::{self, Write};
use std::marker::Model;

/// The standard output. It tells contracts nothing of what was written.
#[derive(Drop)]
pub struct OutSink<'a, R: Print> {
    rt: &'a R,
    faults: u64,
}

impl<'a, R: Print> Model for OutSink<'a, R> {
    ghost use Rattle.std.specs.Prelude.{ℕ};

    ghost Value = { ℕ };

    ghost view = { λ sink. sink.faults };
}

impl<'a, R: Print> OutSink<'a, R> {
    ghost use Rattle.std.specs.Prelude.{◌≡◌};

    /// The standard output, with no fault met.
    pub fn new(rt: &'a R) -> OutSink<'a, R>
        ensures { result ≡ 0 }
    {
        OutSink { rt, faults: 0 }
    }
}

impl<'a, R: Print> Sink for OutSink<'a, R> {
    ghost use Rattle.std.specs.Prelude.{None};

    ghost written = { λ _. None };

    ghost faults = { λ sink. sink };

    fn put(&mut self, bytes: &[u8]) -> Result<(), PutFail> {
        match write_all(&mut io::writer(self.rt), bytes) {
            Ok(()) => Ok(()),
            Err(Stuck) => {
                self.faults += 1;
                Err(PutFail::Failed)
            }
        }
    }
}

// A write failed, or took nothing.
struct Stuck;

// Writes the bytes, in as many turns as it takes. Each turn but a last that is stuck writes at least one.
fn write_all<W: Write>(out: &mut W, bytes: &[u8]) -> Result<(), Stuck>
    ensures ok { OnOk result (Appends (W.contents out.old) (W.contents out.new) bytes.now) }
    ensures err { OnErr result ((n : ℕ) × Appends (W.contents out.old) (W.contents out.new) (take n bytes.now)) }
{
    let mut rest = bytes;
    'turns: while !rest.is_empty() {
        match out.write(rest) {
            Ok(0) => return Err(Stuck),
            Ok(n) => rest = &rest[n..],
            Err(_) => return Err(Stuck),
        }
    }
    Ok(())
}
