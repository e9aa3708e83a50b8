//! The checkpoint that a text stands for.

ghost use Rattle.std.specs.Prelude.{◌≡◌, ◌≤◌, ◌<◌, ◌^◌, ℕ, length};
ghost use Rattle.dp_text.specs.Words.{words};
ghost use Rattle.dp_text.specs.declared.lines.Reading.TheVariants.{Refused};
ghost use Rattle.dp_save.specs.Refused.{ReadsAsCheckpoint};
ghost use Rattle.dp_save.specs.steps.Ending.{finished as checkpoint_of};
ghost use Rattle.dp_save.specs.steps.LineWords.{line_of};
ghost use Rattle.dp_save.specs.steps.Reading.{is_over, next_by};

use crate::reader::{Phase, Reader};
use crate::{Checkpoint, CheckpointFail};
use dp_base::NoMemory;
use dp_text::{LineGrammar, Reading, read_lines};
use dp_tree::Program;
use std::alloc::Global;

/// The lines of a checkpoint of this program.
#[derive(Clone, Copy)]
struct CheckpointGrammar<'p> {
    program: &'p Program,
}

impl<'p> LineGrammar<Reader> for CheckpointGrammar<'p> {
    ghost next = { λ grammar reader line. next_by grammar.program.now reader (line_of (words line)) };

    ghost over = { λ reader. is_over reader.phase };

    fn after(&self, alloc: Global, state: Reader, line: &[u8]) -> Result<Option<Reader>, NoMemory> {
        state.after(alloc, self.program, line)
    }

    fn is_over(&self, state: &Reader) -> bool {
        matches!(state.phase, Phase::Over)
    }
}

/// The checkpoint of a text that has been read.
fn finished(reading: Reading<Reader>) -> Result<Checkpoint, CheckpointFail>
    requires numbered { (line : ℕ) → reading ≡ Refused line → line < 2 ^ 32 }
    ensures { result ≡ checkpoint_of reading }
{
    match reading {
        Reading::Over(reader) => Ok(reader.into_checkpoint()),
        Reading::Refused { line } => Err(CheckpointFail::Refused { line: line as u32 }),
    }
}

/// The checkpoint of a text, or the line at which it is refused.
pub fn read_checkpoint(
    alloc: Global,
    bytes: &[u8],
    p: &Program,
) -> Result<Checkpoint, CheckpointFail>
    requires bytes { length bytes.now ≤ 33554432 }
    ensures { ReadsAsCheckpoint p.now bytes.now result }
{
    let grammar = CheckpointGrammar { program: p };
    let reading = read_lines(alloc, &grammar, Reader::new(alloc), bytes)?;
    finished(reading)
}
