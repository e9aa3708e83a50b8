//! What a lawful program is refused for: counts above their limits.

ghost use Rattle.std.specs.Prelude.{◌≡◌, ◌≤◌, ◌+◌, ◌^◌, length, IfOk, OnErr};
ghost use Rattle.dp_base.specs.Counts.{reported_count};
ghost use Rattle.dp_check.specs.Answer.{unless};
ghost use Rattle.dp_check.specs.Limits as spec;
ghost use Rattle.dp_check.specs.Tables.{cells_in_length, global_of, globals};
ghost use Rattle.dp_check.specs.CheckAnswer.{too_many_functions, too_many_cells};

use crate::CheckFail;
use crate::place::next;
use dp_base::limits::{CELLS, COUNTED, FUNCTIONS, counted_sum};
use dp_base::{NoMemory, Quantity};
use dp_tree::{RawItem, RawProgram};

/// How many file-scope variables there are.
pub fn global_count(items: &[RawItem]) -> Result<u32, NoMemory>
    ensures value { IfOk result (λ n. n ≡ length (globals items.now)) }
    ensures many { OnErr result (2 ^ 32 ≤ length (globals items.now)) }
{
    let mut count = 0;
    for item in items {
        count = global_after(count, item)?;
    }
    Ok(count)
}

fn global_after(count: u32, item: &RawItem) -> Result<u32, NoMemory>
    ensures value { IfOk result (λ n. n ≡ count + length (global_of item.now)) }
    ensures many { OnErr result (2 ^ 32 ≤ count + length (global_of item.now)) }
{
    match item {
        RawItem::Function { .. } => Ok(count),
        RawItem::Scalar { .. } | RawItem::Array { .. } => next(count),
    }
}

fn size_reported(size: i64) -> u32
    ensures { result ≡ reported_count (cells_in_length size) }
{
    if size < 0 {
        0
    } else if size < COUNTED as i64 {
        size as u32
    } else {
        COUNTED
    }
}

fn cells_in(item: &RawItem) -> u32
    ensures value { result ≡ reported_count (spec.cell_sum (global_of item.now)) }
    ensures small { result ≤ COUNTED }
{
    match item {
        RawItem::Scalar { .. } => 1,
        RawItem::Array { length, .. } => size_reported(*length),
        RawItem::Function { .. } => 0,
    }
}

/// The cells of the file-scope variables, as they are reported.
fn cell_count(items: &[RawItem]) -> u32
    ensures { result ≡ reported_count (spec.global_cells items.now) }
{
    let mut count = 0;
    for item in items {
        count = counted_sum(count, cells_in(item));
    }
    count
}

fn functions_in(item: &RawItem) -> u32
    ensures value { result ≡ spec.functions_in item.now }
    ensures small { result ≤ COUNTED }
{
    match item {
        RawItem::Function { .. } => 1,
        RawItem::Scalar { .. } | RawItem::Array { .. } => 0,
    }
}

/// The functions, as they are reported.
fn function_count(items: &[RawItem]) -> u32
    ensures { result ≡ reported_count (spec.function_count items.now) }
{
    let mut count = 0;
    for item in items {
        count = counted_sum(count, functions_in(item));
    }
    count
}

/// No count of the program is above its limit.
pub fn within(raw: &RawProgram) -> Result<(), CheckFail>
    ensures { result ≡ unless (too_many_functions raw.now) (unless (too_many_cells raw.now) (Ok tt)) }
{
    let functions = function_count(raw.items.as_slice());
    if functions > FUNCTIONS {
        return Err(CheckFail::Limit {
            quantity: Quantity::Functions,
            count: functions,
        });
    }
    let cells = cell_count(raw.items.as_slice());
    if cells > CELLS {
        return Err(CheckFail::Limit {
            quantity: Quantity::Cells,
            count: cells,
        });
    }
    Ok(())
}
