//! The texts that are read behind the plans.
ghost use Rattle.std.specs.Prelude.{◌≡◌, ◌<◌, ◌-◌, ◌^◌, ◌≤◌, length, IfOk};
ghost use Rattle.std.specs.Option.{option_map};
ghost use Rattle.dp_load.specs.Last.{ReadsCheckpoint};
ghost use Rattle.dp_load.specs.Loading.{FaultsAfterLoad, Loads, LoadsCheckpoint, LoadsLog, names_after};

use crate::load::Loaded;
use dp_base::limits::{CHECKPOINT_BYTES, LOG_BYTES};
use dp_base::{NoMemory, Quantity, Row};
use dp_edge::{Shelf, ShelfFail};
use dp_refusal::Refusal;
use dp_save::{Checkpoint, CheckpointFail, read_checkpoint};
use dp_tree::Program;
use std::alloc::Global;

/// The bytes of the log under a name. They are given as they are.
#[tactic(auto, using(crate::proofs::BehindLemmas::log_texts))]
pub fn load_log<S: Shelf>(
    alloc: Global,
    shelf: &mut S,
    name: &str,
) -> Result<Loaded<Row<u8>>, NoMemory>
    requires { S.faults shelf.old < 2 ^ 64 - 1 }
    ensures contents { S.contents shelf.new ≡ S.contents shelf.old }
    ensures faults { FaultsAfterLoad result (S.faults shelf.old) (S.faults shelf.new) }
    ensures failed_names { S.failed_names shelf.new ≡ option_map (names_after result name.now) (S.failed_names shelf.old) }
    ensures loads { IfOk result (Loads (LoadsLog (S.contents shelf.old) name.now)) }
{
    match shelf.read(alloc, name, LOG_BYTES) {
        Ok(text) => Ok(Loaded::Text(Row::from_vec(text))),
        Err(ShelfFail::Failed) => Ok(Loaded::Failed),
        Err(ShelfFail::TooLong) => Ok(Loaded::Refused(Refusal::Limit(
            Quantity::LogBytes,
            LOG_BYTES + 1,
        ))),
        Err(ShelfFail::NoMemory) => Err(NoMemory),
    }
}

/// The checkpoint under a name, of this program without calls.
#[tactic(auto, using(crate::proofs::BehindLemmas::checkpoint_texts))]
pub fn load_checkpoint<S: Shelf>(
    alloc: Global,
    shelf: &mut S,
    name: &str,
    program: &Program,
) -> Result<Loaded<Checkpoint>, NoMemory>
    requires { S.faults shelf.old < 2 ^ 64 - 1 }
    ensures contents { S.contents shelf.new ≡ S.contents shelf.old }
    ensures faults { FaultsAfterLoad result (S.faults shelf.old) (S.faults shelf.new) }
    ensures failed_names { S.failed_names shelf.new ≡ option_map (names_after result name.now) (S.failed_names shelf.old) }
    ensures loads { IfOk result (Loads (LoadsCheckpoint (S.contents shelf.old) program.now name.now)) }
{
    match shelf.read(alloc, name, CHECKPOINT_BYTES) {
        Ok(text) => match checkpoint(alloc, text.as_slice(), program)? {
            Ok(checkpoint) => Ok(Loaded::Text(checkpoint)),
            Err(refusal) => Ok(Loaded::Refused(refusal)),
        },
        Err(ShelfFail::Failed) => Ok(Loaded::Failed),
        Err(ShelfFail::TooLong) => Ok(Loaded::Refused(Refusal::Limit(
            Quantity::CheckpointBytes,
            CHECKPOINT_BYTES + 1,
        ))),
        Err(ShelfFail::NoMemory) => Err(NoMemory),
    }
}

/// The checkpoint of a text, or why it is refused.
#[tactic(auto, using(crate::proofs::BehindLemmas::checkpoint_texts))]
fn checkpoint(
    alloc: Global,
    text: &[u8],
    program: &Program,
) -> Result<Result<Checkpoint, Refusal>, NoMemory>
    requires { length text.now ≤ 33554432 }
    ensures { IfOk result (ReadsCheckpoint program.now text.now) }
{
    match read_checkpoint(alloc, text, program) {
        Ok(checkpoint) => Ok(Ok(checkpoint)),
        Err(CheckpointFail::Refused { line }) => Ok(Err(Refusal::CheckpointLine(line))),
        Err(CheckpointFail::NoMemory) => Err(NoMemory),
    }
}
