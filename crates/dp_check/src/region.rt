//! The statements of `main`, where marked loops are regions.

ghost use Rattle.std.specs.Prelude.{◌≡◌, ◌≤◌, ◌+◌, ◌^◌, ◌++◌, [], ℕ, true, IfOk, OnErr, OnOk, if◌then◌else◌};
ghost use Rattle.dp_tree.specs.declared.raw.RawStmt.TheVariants as tree;
ghost use Rattle.dp_check.specs.Place.{place_after, place_passed, parts_all, sited};
ghost use Rattle.dp_check.specs.Resolved as spec;
ghost use Rattle.dp_check.specs.Answer.{GivesChecked, onto, with_last, stepped_answer, top_answer, main_answer};

use crate::CheckFail;
use crate::evaluation::evaluation;
use crate::place::{Place, next};
use crate::statement::{block, looped, statement, statements};
use dp_base::{NoMemory, Row};
use dp_tree::{RawExpr, RawStmt, Stmt};
use std::alloc::Global;

/// At the top of `main` a marked loop is a region.
#[tactic(auto, using(crate::proofs::RegionLemmas::region_forms))]
pub fn is_region(s: &RawStmt) -> bool
    ensures { result ≡ spec.is_marked_loop s.now }
{
    match s {
        RawStmt::While { marked, .. } | RawStmt::For { marked, .. } => *marked,
        _ => false,
    }
}

#[tactic(auto, using(crate::proofs::RegionLemmas::top_answers))]
fn region<'a>(
    alloc: Global,
    place: &mut Place<'a>,
    region: u32,
    cond: &RawExpr,
    body: &'a [RawStmt],
) -> Result<Stmt, CheckFail>
    ensures value { (line : ℕ) → GivesChecked (top_answer place.old region (tree.While line true cond.now body.now)) (with_last [] result) }
    ensures place { OnOk result (place.new ≡ place_passed (sited place.old) (parts_all body.now)) }
{
    let (site, cond) = evaluation(alloc, place, cond)?;
    let body = block(alloc, place, body)?;
    Ok(Stmt::Region {
        region,
        site,
        cond,
        body,
    })
}

/// A region whose body ends with a step. The initialiser's names are visible in it; the caller gives them up.
#[tactic(auto, using(crate::proofs::RegionLemmas::stepped_answers))]
fn stepped_region<'a>(
    alloc: Global,
    place: &mut Place<'a>,
    region: u32,
    cond: &RawExpr,
    step: &'a [RawStmt],
    body: &'a [RawStmt],
) -> Result<Stmt, CheckFail>
    ensures value { GivesChecked (stepped_answer place.old region cond.now step.now body.now) result }
    ensures place { OnOk result (place.new ≡ place_passed (sited place.old) (parts_all body.now ++ parts_all step.now)) }
{
    let (site, cond) = evaluation(alloc, place, cond)?;
    let body = looped(alloc, place, step, body)?;
    Ok(Stmt::Region {
        region,
        site,
        cond,
        body,
    })
}

/// The last of the statements that one at the top of `main` stands for, where `number` is that of the next region. Those
/// before it are put behind those that are done.
fn top<'a>(
    alloc: Global,
    place: &mut Place<'a>,
    number: u32,
    s: &'a RawStmt,
    done: &mut Row<Stmt>,
) -> Result<Stmt, CheckFail>
    ensures value { GivesChecked (onto done.old (top_answer place.old number s.now)) (with_last done.new result) }
    ensures place { OnOk result (place.new ≡ place_after place.old s.now) }
{
    match s {
        RawStmt::While {
            marked,
            cond,
            body,
            ..
        } if *marked => region(alloc, place, number, cond, body.as_slice()),
        RawStmt::For {
            marked,
            first,
            cond,
            step,
            body,
            ..
        } if *marked => {
            let count = place.names.len();
            statements(alloc, place, first.as_slice(), done)?;
            let (step, body) = (step.as_slice(), body.as_slice());
            let last = stepped_region(alloc, place, number, cond, step, body)?;
            place.names.keep(count);
            Ok(last)
        }
        _ => statement(alloc, place, s, done),
    }
}

/// The number of the next region after a statement.
pub fn region_after(number: u32, s: &RawStmt) -> Result<u32, NoMemory>
    ensures value { IfOk result (λ n. n ≡ (if spec.is_marked_loop s.now then number + 1 else number)) }
    ensures full { OnErr result (2 ^ 32 ≤ (if spec.is_marked_loop s.now then number + 1 else number)) }
{
    if is_region(s) {
        next(number)
    } else {
        Ok(number)
    }
}

/// The statements of `main`.
pub fn main_statements<'a>(
    alloc: Global,
    place: &mut Place<'a>,
    all: &'a [RawStmt],
) -> Result<Row<Stmt>, CheckFail>
    ensures { GivesChecked (main_answer place.old 1 all.now) result }
{
    let mut done = Row::new(alloc);
    let mut number = 1;
    for s in all {
        let last = top(alloc, place, number, s, &mut done)?;
        done.push(last)?;
        number = region_after(number, s)?;
    }
    Ok(done)
}
