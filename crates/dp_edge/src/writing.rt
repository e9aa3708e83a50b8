//! Bytes that are written, and what was written where they weren't all.
ghost use Rattle.std.specs.Prelude.{◌≡◌, ◌<◌, ◌-◌, ◌^◌, OnOk, OnErr};
ghost use Rattle.dp_edge.specs.Sink.{appended};
ghost use Rattle.dp_edge.specs.Writing.{FaultsAfter, WritesFront};

use crate::sink::{PutFail, Sink};
use dp_base::NoMemory;

/// Why a text wasn't written to its end. A front of it was.
#[derive(Clone, Copy)]
pub enum WriteFail {
    /// Memory was wanting.
    NoMemory,
    /// The sink failed.
    Write,
}

impl From<NoMemory> for WriteFail {
    ghost use Rattle.dp_edge.specs.declared.writing.WriteFail.TheVariants.{NoMemory};

    ghost from_gives = { λ _ fail. fail ≡ NoMemory };

    fn from(_wanting: NoMemory) -> WriteFail {
        WriteFail::NoMemory
    }
}

/// Writes the bytes.
#[tactic(auto, using(crate::proofs::FrontLemmas::front_taken, crate::proofs::FrontLemmas::front_nothing))]
pub fn write<K: Sink>(bytes: &[u8], sink: &mut K) -> Result<(), WriteFail>
    requires { K.faults sink.old < 2 ^ 64 - 1 }
    ensures faults { FaultsAfter result (K.faults sink.old) (K.faults sink.new) }
    ensures ok { OnOk result (K.written sink.new ≡ appended bytes.now (K.written sink.old)) }
    ensures err { OnErr result (WritesFront bytes.now (K.written sink.old) (K.written sink.new)) }
{
    match sink.put(bytes) {
        Ok(()) => Ok(()),
        Err(PutFail::Failed) => Err(WriteFail::Write),
        Err(PutFail::NoMemory) => Err(WriteFail::NoMemory),
    }
}
