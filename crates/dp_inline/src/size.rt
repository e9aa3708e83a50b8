//! How large the expanded program is, counted without making it.

ghost use Rattle.std.specs.Prelude.{◌≡◌, ◌≤◌, [], min, IfOk, Ok};
ghost use Rattle.dp_base.specs.Counts.{reported_count};
ghost use Rattle.dp_tree.specs.Checked.{IsChecked};
ghost use Rattle.dp_inline.specs.InlineAnswer.{GivesInlined, unless_refused, too_large, first_large_region};
ghost use Rattle.dp_inline.specs.steps.Counted.{counted, counted_one, counted_list, counted_more, counted_region, first_large};

use crate::InlineFail;
use dp_base::limits::{COUNTED, INLINED_SIZE, REGION_SITES, counted_sum};
use dp_base::{NoMemory, Quantity, Row};
use dp_tree::{Program, Stmt};
use std::alloc::Global;

/// The number of arguments, as it is reported.
fn bindings(args: usize) -> u32
    ensures { result ≡ min args COUNTED }
{
    args.min(COUNTED as usize) as u32
}

/// The size of a function's body, from the sizes of the functions so far.
fn size_at(sizes: &[u32], function: u32) -> u32
    ensures { result ≡ counted sizes.now function }
{
    match sizes.get(function as usize) {
        Some(size) => (*size).min(COUNTED),
        None => 0,
    }
}

/// The size of a statement, where each call counts `each` on top of its bindings and its function's body.
#[tactic(auto, using(crate::proofs::SizeForms::size_forms))]
#[cycle(size)]
fn size_of(each: u32, sizes: &[u32], s: &Stmt) -> u32
    requires { each ≤ 1 }
    ensures value { result ≡ reported_count (counted_one each sizes.now s.now) }
    ensures small { result ≤ COUNTED }
{
    match s {
        Stmt::Assign { .. } | Stmt::Store { .. } | Stmt::Print { .. } | Stmt::Break { .. } => 1,
        Stmt::If {
            then_part,
            else_part,
            ..
        } => counted_sum(
            1,
            counted_sum(
                size_of_all(each, sizes, then_part.as_slice()),
                size_of_all(each, sizes, else_part.as_slice()),
            ),
        ),
        Stmt::While { body, .. } | Stmt::Region { body, .. } => counted_sum(
            1,
            size_of_all(each, sizes, body.as_slice()),
        ),
        Stmt::Call { function, args, .. } => counted_sum(
            each,
            counted_sum(bindings(args.len()), size_at(sizes, *function)),
        ),
    }
}

/// The size of statements.
#[cycle(size)]
fn size_of_all(each: u32, sizes: &[u32], all: &[Stmt]) -> u32
    requires { each ≤ 1 }
    ensures value { result ≡ reported_count (counted_list each sizes.now all.now) }
    ensures small { result ≤ COUNTED }
{
    let mut size = 0;
    for s in all {
        size = counted_sum(size, size_of(each, sizes, s));
    }
    size
}

/// The sizes of the functions' bodies. A call leads to an earlier function, so each is counted once.
fn sizes(alloc: Global, each: u32, p: &Program) -> Result<Row<u32>, NoMemory>
    requires { each ≤ 1 }
    ensures { IfOk result (λ sizes. sizes ≡ counted_more each [] p.now.functions) }
{
    let functions = p.functions.as_slice();
    let mut done = Row::with_capacity(alloc, functions.len())?;
    for function in functions {
        let size = size_of_all(each, done.as_slice(), function.body.as_slice());
        done.push(size)?;
    }
    Ok(done)
}

/// The sites of a region. A statement that is no region has none.
fn region_size(sizes: &[u32], s: &Stmt) -> u32
    ensures { result ≡ reported_count (counted_region sizes.now s.now) }
{
    match s {
        Stmt::Region { .. } => size_of(0, sizes, s),
        _ => 0,
    }
}

/// The sites of the first region with too many.
fn large_region(sizes: &[u32], all: &[Stmt]) -> Option<u32>
    ensures { result ≡ first_large sizes.now all.now }
{
    for s in all {
        let count = region_size(sizes, s);
        if count > REGION_SITES {
            return Some(count);
        }
    }
    None
}

/// No count of the expanded program is above its limit.
pub fn within(alloc: Global, p: &Program) -> Result<(), InlineFail>
    ensures { IsChecked p.now → GivesInlined (unless_refused (too_large p.now) (unless_refused (first_large_region p.now p.now.main) (Ok tt))) result }
{
    let counts = sizes(alloc, 1, p)?;
    let count = size_of_all(1, counts.as_slice(), p.main.as_slice());
    if count > INLINED_SIZE {
        return Err(InlineFail::Limit {
            quantity: Quantity::InlinedSize,
            count,
        });
    }
    let counts = sizes(alloc, 0, p)?;
    if let Some(count) = large_region(counts.as_slice(), p.main.as_slice()) {
        return Err(InlineFail::Limit {
            quantity: Quantity::RegionSites,
            count,
        });
    }
    Ok(())
}
