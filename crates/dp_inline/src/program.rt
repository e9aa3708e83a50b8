//! A program with its calls expanded.

ghost use Rattle.std.specs.Prelude.{◌≡◌, [], IfOk};
ghost use Rattle.dp_calls.specs.Expand.{expand};
ghost use Rattle.dp_calls.specs.Tables.{first_tables};
ghost use Rattle.dp_tree.specs.Checked.{IsChecked};
ghost use Rattle.dp_tree.specs.Inlined.{IsInlined};
ghost use Rattle.dp_inline.specs.InlineAnswer.{GivesInlined, inline_answer};
ghost use Rattle.dp_calls.specs.Meaning.{DoesTheSame};
ghost use Rattle.dp_inline.specs.steps.Written.{written};

use crate::InlineFail;
use crate::piece::Writer;
use crate::size::within;
use crate::statement::statements;
use dp_base::{NoMemory, Row};
use dp_tree::Program;
use std::alloc::Global;

/// Before the text of `main`: the variables of the file.
fn begin(alloc: Global, p: &Program) -> Result<Writer, NoMemory>
    ensures { IfOk result (λ out. written out ≡ record { code = []; names = []; tables = first_tables p.now }) }
{
    let mut out = Writer::new(alloc);
    for info in p.vars.as_slice() {
        out.global(info)?;
    }
    Ok(out)
}

fn expanded(alloc: Global, p: &Program) -> Result<Program, NoMemory>
    ensures { IfOk result (λ q. q ≡ expand p.now) }
{
    let mut out = begin(alloc, p)?;
    statements(p, p.functions.len(), 0, &mut out, p.main.as_slice())?;
    Ok(Program {
        vars: out.vars,
        sites: out.sites,
        regions: out.regions,
        functions: Row::new(alloc),
        main: out.code,
    })
}

/// What is answered for a checked program.
#[tactic(auto, using(crate::proofs::SizeForms::inline_answers))]
pub(crate) fn bounded(alloc: Global, p: &Program) -> Result<Program, InlineFail>
    ensures { IsChecked p.now → GivesInlined (inline_answer p.now) result }
{
    within(alloc, p)?;
    Ok(expanded(alloc, p)?)
}

/// The program with each call replaced by the bindings of its arguments and the body of its function. A program that
/// would be too large is refused without being made.
#[tactic(auto, using(crate::proofs::MeaningLemmas::meanings))]
pub fn inline(alloc: Global, p: &Program) -> Result<Program, InlineFail>
    requires { IsChecked p.now }
    ensures gives { GivesInlined (inline_answer p.now) result }

    // What is made does the same as the program with call frames, and is ready for the machine and for plans.
    ensures same { IfOk result (DoesTheSame p.now) }
    ensures inlined { IfOk result IsInlined }
{
    bounded(alloc, p)
}
