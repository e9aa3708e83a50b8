//! The plans of a text, before any rule on plans is tested.

ghost use Rattle.std.specs.Prelude.{◌≡◌, ◌<◌, ◌≤◌, ◌^◌, MatchResult, length};
ghost use Rattle.dp_text.specs.Words.{words};
ghost use Rattle.dp_plan_text.specs.steps.Ending.{ReadsText, finished as plans_of};
ghost use Rattle.dp_plan_text.specs.steps.LineWords.{line_of};
ghost use Rattle.dp_plan_text.specs.steps.Reading.{is_over, next_by};

use crate::line::read_line;
use crate::reader::{Phase, Reader};
use crate::{PlanFail, WrittenPlans};
use dp_base::NoMemory;
use dp_text::{LineGrammar, Reading, read_lines};
use dp_tree::Program;
use std::alloc::Global;

/// The lines of plans for so many regions.
#[derive(Clone, Copy)]
struct PlanGrammar {
    regions: u32,
}

impl LineGrammar<Reader> for PlanGrammar {
    ghost next = { λ grammar reader line. next_by grammar.regions reader (line_of (words line)) };

    ghost over = { λ reader. is_over reader.phase };

    fn after(&self, alloc: Global, state: Reader, line: &[u8]) -> Result<Option<Reader>, NoMemory> {
        let line = read_line(alloc, line)?;
        state.after(alloc, self.regions, line)
    }

    fn is_over(&self, state: &Reader) -> bool {
        matches!(state.phase, Phase::Over)
    }
}

/// The plans of a text that has been read.
fn finished(reading: Reading<Reader>) -> Result<WrittenPlans, PlanFail>
    ensures { result ≡ plans_of reading }
{
    match reading {
        Reading::Over(reader) => {
            let Reader { proved, plans, .. } = reader;
            Ok(WrittenPlans { proved, plans })
        }
        Reading::Refused { line } => Err(PlanFail::Refused { line }),
    }
}

/// How many regions there are. More than 32 bits can count answer want of memory.
fn region_count(p: &Program) -> Result<u32, NoMemory>
    ensures { MatchResult result (λ count. (count ≡ length p.now.regions) × (length p.now.regions < 2 ^ 32)) (λ _. 2 ^ 32 ≤ length p.now.regions) }
{
    let count = p.regions.len();
    if count > 4_294_967_295 {
        return Err(NoMemory);
    }
    Ok(count as u32)
}

/// The plans as a text has them, before any rule on plans is tested.
///
/// `Invalid` is never answered.
pub(crate) fn read_text(alloc: Global, bytes: &[u8], p: &Program) -> Result<WrittenPlans, PlanFail>
    ensures { ReadsText p.now bytes.now result }
{
    let regions = region_count(p)?;
    let reading = read_lines(alloc, &PlanGrammar { regions }, Reader::new(alloc), bytes)?;
    finished(reading)
}
