//! A count that is above its limit: how many there are, how many there may be, and where the limit is passed.
ghost use Rattle.std.specs.Prelude.{◌≤◌, length};
ghost use Rattle.dp_base.specs.declared.limits.TheConstants.{PROGRAM_BYTES};

use crate::page::Page;
use crate::scope::declares;
use crate::sizes::{passing_region, passing_statement};
use crate::source::{Source, Spot, put_head, put_spot};
use crate::tokens::{Placed, placed_tokens, text_at, text_before, text_behind};
use dp_base::limits::{
    CELLS, CHECKPOINT_BYTES, ELSE_IF, FUNCTIONS, INLINED_SIZE, INPUT_BYTES, INPUT_WORDS,
    LIST_BYTES, LOG_BYTES, NESTING, OPERATORS, PLAN_BYTES, PROFILE_BYTES, PROGRAM_BYTES,
    REGION_SITES,
};
use dp_base::{NoMemory, Quantity};
use std::alloc::Global;

/// What a token does to a count.
#[derive(Clone, Copy)]
enum Step {
    More(u64),
    Less,
    Anew,
    Stay,
}

/// The most that there may be.
pub fn most_of(quantity: Quantity) -> u32 {
    match quantity {
        Quantity::ProgramBytes => PROGRAM_BYTES,
        Quantity::Nesting => NESTING,
        Quantity::Operators => OPERATORS,
        Quantity::ElseIf => ELSE_IF,
        Quantity::Functions => FUNCTIONS,
        Quantity::Cells => CELLS,
        Quantity::InlinedSize => INLINED_SIZE,
        Quantity::RegionSites => REGION_SITES,
        Quantity::InputBytes => INPUT_BYTES,
        Quantity::InputWords => INPUT_WORDS,
        Quantity::PlanBytes => PLAN_BYTES,
        Quantity::ProfileBytes => PROFILE_BYTES,
        Quantity::LogBytes => LOG_BYTES,
        Quantity::CheckpointBytes => CHECKPOINT_BYTES,
        Quantity::ListBytes => LIST_BYTES,
    }
}

/// What is counted: `there are N ..`.
fn counted(quantity: Quantity) -> &'static str {
    match quantity {
        Quantity::Nesting => " braces are open at once",
        Quantity::Operators =>
            " operators and opening brackets stand between two of `{`, `}` and `;`",
        Quantity::ElseIf => " `else if` stand in the program",
        Quantity::Functions => " functions stand beside `main`",
        Quantity::Cells => " cells are needed by the file-scope variables",
        Quantity::InlinedSize => " sites and calls are in the program with its calls expanded",
        Quantity::RegionSites => " sites are in a marked loop with its calls expanded",
        Quantity::InputWords => " words are in the input",
        Quantity::ProgramBytes
        | Quantity::InputBytes
        | Quantity::PlanBytes
        | Quantity::ProfileBytes
        | Quantity::LogBytes
        | Quantity::CheckpointBytes
        | Quantity::ListBytes => " bytes or more are in the file",
    }
}

/// What can be done about it.
fn advice(quantity: Quantity) -> &'static str {
    match quantity {
        Quantity::Nesting => "move inner statements into a function",
        Quantity::Operators => "take parts of the expression into variables",
        Quantity::ElseIf => "split the choice, or look the answer up in an array",
        Quantity::Functions => "join functions that are seldom called",
        Quantity::Cells => "shorten an array",
        Quantity::InlinedSize =>
            "each call stands for the whole body of its function: call large ones from fewer places",
        Quantity::RegionSites =>
            "move a part of the loop's body behind the loop, or into a loop of its own",
        Quantity::InputWords | Quantity::InputBytes =>
            "cut the input into several, as `batch` takes them",
        Quantity::ProgramBytes =>
            "a program is one text: leave out comments or functions that aren't called",
        Quantity::PlanBytes
        | Quantity::ProfileBytes
        | Quantity::LogBytes
        | Quantity::CheckpointBytes
        | Quantity::ListBytes => "look whether the right file is named",
    }
}

/// Puts the count, the limit and what can be done.
pub fn put_count(page: &mut Page, quantity: Quantity, count: u32) {
    page.put_number(u64::from(count));
    page.put(counted(quantity));
    page.put(", and at most ");
    page.put_number(u64::from(most_of(quantity)));
    page.put(" may be\n");
}

/// Tells of a count of a file as a whole.
pub fn tell_file(page: &mut Page, name: &str, quantity: Quantity, count: u32) {
    page.put(name);
    page.put(": error: ");
    put_count(page, quantity, count);
    page.hint(advice(quantity));
}

/// Tells of a count in a program, with the place where it passes its limit.
pub fn tell_limit(
    alloc: Global,
    page: &mut Page,
    source: Source<'_>,
    quantity: Quantity,
    count: u32,
) -> Result<(), NoMemory>
    requires { length source.text.now ≤ PROGRAM_BYTES }
{
    let tokens = placed_tokens(alloc, source.text)?;
    let tokens = tokens.as_slice();
    let passing = match quantity {
        Quantity::InlinedSize => passing_statement(alloc, source.text, tokens)?,
        Quantity::RegionSites => passing_region(alloc, source.text, tokens)?,
        _ => passing_token(tokens, quantity),
    };
    match passing {
        Some(spot) => tell_spot(page, source, spot, quantity, count),
        None => tell_file(page, source.name, quantity, count),
    }
    Ok(())
}

/// Tells of a count that passes its limit at this spot.
pub fn tell_spot(page: &mut Page, source: Source<'_>, spot: Spot, quantity: Quantity, count: u32) {
    put_head(page, source, spot, "error");
    put_count(page, quantity, count);
    put_spot(page, source, spot, "the limit is passed here");
    page.hint(advice(quantity));
}

/// The first token at which the count is above its limit.
fn passing_token(tokens: &[Placed<'_>], quantity: Quantity) -> Option<Spot> {
    let most = u64::from(most_of(quantity));
    let mut count: u64 = 0;
    let mut depth: u64 = 0;
    for (at, placed) in tokens.iter().enumerate() {
        match placed.token.text {
            b"{" => depth = depth.saturating_add(1),
            b"}" => depth = depth.saturating_sub(1),
            _ => {}
        }
        count = match step_at(tokens, at, quantity, depth == 0) {
            Step::More(more) => count.saturating_add(more),
            Step::Less => count.saturating_sub(1),
            Step::Anew => 0,
            Step::Stay => count,
        };
        if count > most {
            return Some(placed.spot());
        }
    }
    None
}

/// What the token at a place of the list does to the count.
fn step_at(tokens: &[Placed<'_>], at: usize, quantity: Quantity, outside: bool) -> Step {
    let text = text_at(tokens, at);
    match quantity {
        Quantity::Nesting => match text {
            b"{" => Step::More(1),
            b"}" => Step::Less,
            _ => Step::Stay,
        },
        Quantity::Operators => operators_at(text),
        Quantity::ElseIf
            if matches!(text, b"if") && matches!(text_before(tokens, at, 1), b"else") => Step::More(
            1,
        ),
        Quantity::Functions
            if declares(tokens, at) && matches!(text_before(tokens, at, 1), b"void") => {
            Step::More(1)
        }
        Quantity::Cells if outside && declares(tokens, at) => Step::More(cells_at(tokens, at)),
        _ => Step::Stay,
    }
}

fn operators_at(text: &[u8]) -> Step {
    match text {
        b"{" | b"}" | b";" => Step::Anew,
        b"+" | b"-" | b"*" | b"/" | b"%" | b"!" | b"&&" | b"||" => Step::More(1),
        b"<" | b"<=" | b">" | b">=" | b"==" | b"!=" | b"(" | b"[" => Step::More(1),
        _ => Step::Stay,
    }
}

/// How many cells the variable has that is declared at a place of the list: none where it is a function or a parameter.
fn cells_at(tokens: &[Placed<'_>], at: usize) -> u64 {
    match text_behind(tokens, at, 1) {
        b"[" => number_of(text_behind(tokens, at, 2)),
        b"=" | b";" => 1,
        _ => 0,
    }
}

/// The number that digits write, or the greatest one.
fn number_of(digits: &[u8]) -> u64 {
    let mut number: u64 = 0;
    for digit in digits {
        let value = u64::from(digit.saturating_sub(b'0'));
        number = number.saturating_mul(10).saturating_add(value);
    }
    number
}
