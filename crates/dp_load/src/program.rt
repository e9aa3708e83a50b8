//! From a program's text to the program.
ghost use Rattle.std.specs.Prelude.{◌≡◌, ◌≢◌, ◌≤◌, ℕ, List, length, true, IfOk, OnErr};
ghost use Rattle.std.specs.List.{list_all};
ghost use Rattle.dp_tree.specs.Checked.{IsChecked};
ghost use Rattle.dp_parse.specs.Parses.{Parses};
ghost use Rattle.dp_check.specs.Checked.{breaks_fit, has_length};
ghost use Rattle.dp_check.specs.CheckAnswer.{check_answer};
ghost use Rattle.dp_check.specs.declared.fail.CheckFail.TheVariants as failed;
ghost use Rattle.dp_inline.specs.InlineAnswer.{inline_answer};
ghost use Rattle.dp_load.specs.Program.{Reads, ReadsAs, refusal_of, sized, checked_read, expanded};

use dp_base::NoMemory;
use dp_check::{CheckFail, check};
use dp_inline::{InlineFail, inline};
use dp_parse::{ParseFail, parse};
use dp_refusal::{Offence, Refusal};
use dp_tree::{Program, RawProgram};
use std::alloc::Global;

/// The text's program with its calls expanded, or why it is refused.
#[tactic(auto, using(crate::proofs::LoadLemmas::checked_texts))]
pub fn read_program(alloc: Global, text: &[u8]) -> Result<Result<Program, Refusal>, NoMemory>
    requires { length text.now ≤ 65536 }
    ensures { IfOk result (ReadsAs text.now) }
{
    match parse(alloc, text) {
        Ok(raw) => check_tree(alloc, &raw),
        Err(fail) => Ok(Err(unread(fail)?)),
    }
}

/// Why a text gives no tree.
#[tactic(auto, using(crate::proofs::LoadLemmas::unread_texts))]
fn unread(fail: ParseFail) -> Result<Refusal, NoMemory>
    ensures { (text : List ℕ) → length text ≤ 65536 → Parses text (Err fail) → IfOk result (λ refusal. Reads text (Err refusal)) }
{
    match fail {
        ParseFail::Lex { place } => Ok(Refusal::Byte(place)),
        ParseFail::TooDeep { quantity, count } => Ok(Refusal::Limit(quantity, count)),
        ParseFail::Refused { token } => Ok(Refusal::Syntax(token)),
        ParseFail::NoMemory => Err(NoMemory),
    }
}

/// The tree's program with its calls expanded, where no name offends and no size is above its limit.
fn check_tree(alloc: Global, raw: &RawProgram) -> Result<Result<Program, Refusal>, NoMemory>
    requires lengths { list_all has_length raw.now.items ≡ true }
    requires exits { breaks_fit raw.now ≡ true }
    ensures { IfOk result (λ read. read ≡ expanded (checked_read (check_answer raw.now))) }
{
    match check(alloc, raw) {
        Ok(program) => expand_calls(alloc, &program),
        Err(fail) => Ok(Err(offending(fail)?)),
    }
}

/// Why a tree stands for no program.
fn offending(fail: CheckFail) -> Result<Refusal, NoMemory>
    ensures ok { IfOk result (λ refusal. (fail ≢ failed.NoMemory) × (refusal ≡ refusal_of fail)) }
    ensures err { OnErr result (fail ≡ failed.NoMemory) }
{
    match fail {
        CheckFail::Unknown { line } => Ok(Refusal::Name(Offence::Unknown, line)),
        CheckFail::Twice { line } => Ok(Refusal::Name(Offence::Twice, line)),
        CheckFail::NotArray { line } => Ok(Refusal::Name(Offence::NotArray, line)),
        CheckFail::NotScalar { line } => Ok(Refusal::Name(Offence::NotScalar, line)),
        CheckFail::Arguments { line } => Ok(Refusal::Name(Offence::Arguments, line)),
        CheckFail::ReadOnly { line } => Ok(Refusal::Name(Offence::ReadOnly, line)),
        CheckFail::Limit { quantity, count } => Ok(Refusal::Limit(quantity, count)),
        CheckFail::NoMemory => Err(NoMemory),
    }
}

/// The program with its calls expanded, unless it is too large.
#[tactic(auto, using(crate::proofs::LoadLemmas::expansions))]
fn expand_calls(alloc: Global, program: &Program) -> Result<Result<Program, Refusal>, NoMemory>
    requires { IsChecked program.now }
    ensures { IfOk result (λ read. read ≡ expanded (sized program.now (inline_answer program.now))) }
{
    match inline(alloc, program) {
        Ok(expanded) => Ok(Ok(expanded)),
        Err(InlineFail::Limit { quantity, count }) => Ok(Err(Refusal::Limit(quantity, count))),
        Err(InlineFail::NoMemory) => Err(NoMemory),
    }
}
