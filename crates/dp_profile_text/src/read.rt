//! The profile that a text stands for.

ghost use Rattle.std.specs.Prelude.{◌≡◌};
ghost use Rattle.dp_text.specs.Words.{words};
ghost use Rattle.dp_tree.specs.Inlined.{IsInlined};
ghost use Rattle.dp_profile_text.specs.Refused.{ReadsAsProfile};
ghost use Rattle.dp_profile_text.specs.steps.Ending.{finished as profile_of};
ghost use Rattle.dp_profile_text.specs.steps.LineWords.{line_of};
ghost use Rattle.dp_profile_text.specs.steps.Reading.{is_over, next_by};

use crate::ProfileFail;
use crate::line::read_line;
use crate::reader::{Phase, Reader};
use dp_base::{NoMemory, Row};
use dp_profile::{Profile, RegionSite, regions_of};
use dp_text::{LineGrammar, Reading, read_lines};
use dp_tree::Program;
use std::alloc::Global;

/// The lines of a profile of regions with these sites.
#[derive(Clone, Copy)]
struct ProfileGrammar<'a> {
    all: &'a [Row<RegionSite>],
}

impl<'a> LineGrammar<Reader> for ProfileGrammar<'a> {
    ghost next = { λ grammar reader line. next_by grammar.all.now reader (line_of (words line)) };

    ghost over = { λ reader. is_over reader.phase };

    fn after(&self, alloc: Global, state: Reader, line: &[u8]) -> Result<Option<Reader>, NoMemory> {
        state.after(alloc, self.all, read_line(line))
    }

    fn is_over(&self, state: &Reader) -> bool {
        matches!(state.phase, Phase::Over)
    }
}

/// The profile of a text that has been read.
fn finished(reading: Reading<Reader>) -> Result<Profile, ProfileFail>
    ensures { result ≡ profile_of reading }
{
    match reading {
        Reading::Over(reader) => {
            let Reader { done, .. } = reader;
            Ok(Profile { regions: done })
        }
        Reading::Refused { line } => Err(ProfileFail::Refused { line }),
    }
}

/// The profile of a text, or the line at which it is refused.
pub fn read_profile(alloc: Global, text: &[u8], p: &Program) -> Result<Profile, ProfileFail>
    requires inlined { IsInlined p.now }
    ensures { ReadsAsProfile p.now text.now result }
{
    let all = regions_of(alloc, p)?;
    let grammar = ProfileGrammar {
        all: all.as_slice(),
    };
    let reading = read_lines(alloc, &grammar, Reader::new(alloc), text)?;
    finished(reading)
}
