//! Laws of the definitions, as contracts of functions that do nothing.

ghost use Rattle.std.specs.Prelude.{ℕ, List};
ghost use Rattle.dp_save.specs.declared.Checkpoint.{Checkpoint as saved};
ghost use Rattle.dp_save.specs.CheckpointText.{CheckpointText};
ghost use Rattle.dp_save.specs.Fits.{Fits};
ghost use Rattle.dp_save.specs.Refused.{ReadsOnlyCheckpoint};
ghost use Rattle.dp_save.specs.WrittenText.{checkpoint_bytes};

use dp_tree::Program;

/// What is written of a checkpoint that fits the program is read back as this checkpoint and nothing else.
#[tactic(auto, using(crate::proofs::ReadBack::written_back, crate::proofs::ReadBack::written_only))]
pub fn written_checkpoints_are_read(p: &Program)
    ensures text { (c : saved) → Fits p.now c → CheckpointText p.now (checkpoint_bytes c) c }
    ensures alone { (c : saved) → Fits p.now c → ReadsOnlyCheckpoint p.now (checkpoint_bytes c) c }
{}

/// A text has one checkpoint, and this fits the program.
#[tactic(auto, using(crate::proofs::ReadBack::read_only, crate::proofs::ReadBack::read_fits))]
pub fn read_checkpoints_fit(p: &Program)
    ensures fits { (bytes : List ℕ) (c : saved) → CheckpointText p.now bytes c → Fits p.now c }
    ensures alone { (bytes : List ℕ) (c : saved) → CheckpointText p.now bytes c → ReadsOnlyCheckpoint p.now bytes c }
{}
