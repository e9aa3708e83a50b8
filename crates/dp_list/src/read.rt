//! The names that a text lists.
ghost use Rattle.std.specs.Prelude.{◌≡◌};
ghost use Rattle.dp_list.specs.Refused.{ReadsAsList};
ghost use Rattle.dp_list.specs.steps.Ending.{IsShort, finished as names_of};
ghost use Rattle.dp_list.specs.steps.Naming.{has_name, with_name};

use crate::ListFail;
use crate::names::is_name;
use dp_room::{NoMemory, Row};
use dp_text::{LineGrammar, Reading, read_lines};
use std::alloc::Global;

/// Names of a list.
const NAMES: usize = 64;

/// The lines of a list, each of which is a name.
#[derive(Clone, Copy)]
struct ListGrammar;

impl LineGrammar<Row<Row<u8>>> for ListGrammar {
    ghost next = { λ _ names line. with_name names line };

    ghost over = { λ names. has_name names };

    fn after(
        &self,
        alloc: Global,
        mut state: Row<Row<u8>>,
        line: &[u8],
    ) -> Result<Option<Row<Row<u8>>>, NoMemory> {
        if state.len() < NAMES && is_name(line) {
            let name = Row::from_slice(alloc, line)?;
            state.push(name)?;
            Ok(Some(state))
        } else {
            Ok(None)
        }
    }

    fn is_over(&self, state: &Row<Row<u8>>) -> bool {
        !state.is_empty()
    }
}

/// The names of a text that has been read.
fn finished(reading: Reading<Row<Row<u8>>>) -> Result<Row<Row<u8>>, ListFail>
    requires { IsShort reading }
    ensures { result ≡ names_of reading }
{
    match reading {
        Reading::Over(names) => Ok(names),
        Reading::Refused { line } => Err(ListFail::Refused { line: line as u32 }),
    }
}

/// The names of a list's text, or the line at which it is refused.
pub fn read_list(alloc: Global, bytes: &[u8]) -> Result<Row<Row<u8>>, ListFail>
    ensures { ReadsAsList bytes.now result }
{
    let reading = read_lines(alloc, &ListGrammar, Row::new(alloc), bytes)?;
    finished(reading)
}
