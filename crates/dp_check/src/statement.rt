//! Statements with names become statements with numbers.

ghost use Rattle.std.specs.Prelude.{◌≡◌, ◌++◌, ℕ, Bool, [], OnOk};
ghost use Rattle.dp_tree.specs.declared.raw.RawStmt.TheVariants as tree;
ghost use Rattle.dp_check.specs.Place.{place_after, place_after_all, place_passed, parts_all, sited};
ghost use Rattle.dp_check.specs.Answer.{GivesChecked, onto, with_last, with_all, statement_answer, block_answer, loop_answer};

use crate::CheckFail;
use crate::evaluation::evaluation;
use crate::numbers::pass_all;
use crate::place::Place;
use crate::simple::{assign, call, declare, exit, print, store};
use dp_base::Row;
use dp_tree::{RawExpr, RawStmt, Stmt};
use std::alloc::Global;

/// An `if` with these parts.
#[tactic(auto, using(crate::proofs::StatementLemmas::statement_answers))]
#[cycle(statements)]
fn conditional<'a>(
    alloc: Global,
    place: &mut Place<'a>,
    then_part: &'a [RawStmt],
    else_part: &'a [RawStmt],
    cond: &RawExpr,
) -> Result<Stmt, CheckFail>
    ensures value { (line : ℕ) → GivesChecked (statement_answer place.old (tree.If line cond.now then_part.now else_part.now)) (with_last [] result) }
    ensures place { OnOk result (place.new ≡ place_passed (place_passed (sited place.old) (parts_all then_part.now)) (parts_all else_part.now)) }
{
    let (site, cond) = evaluation(alloc, place, cond)?;
    let then_part = block(alloc, place, then_part)?;
    let else_part = block(alloc, place, else_part)?;
    Ok(Stmt::If {
        site,
        cond,
        then_part,
        else_part,
    })
}

/// A `while` with these parts. A mark on it means nothing here.
#[tactic(auto, using(crate::proofs::StatementLemmas::statement_answers))]
#[cycle(statements)]
fn repeated<'a>(
    alloc: Global,
    place: &mut Place<'a>,
    body: &'a [RawStmt],
    cond: &RawExpr,
) -> Result<Stmt, CheckFail>
    ensures value { (line : ℕ) (marked : Bool) → GivesChecked (statement_answer place.old (tree.While line marked cond.now body.now)) (with_last [] result) }
    ensures place { OnOk result (place.new ≡ place_passed (sited place.old) (parts_all body.now)) }
{
    let (site, cond) = evaluation(alloc, place, cond)?;
    let body = block(alloc, place, body)?;
    Ok(Stmt::While { site, cond, body })
}

/// The body and then the step of a loop, from the place behind its condition.
#[tactic(auto, using(crate::proofs::StatementLemmas::loop_answers))]
#[cycle(statements)]
pub fn looped<'a>(
    alloc: Global,
    place: &mut Place<'a>,
    step: &'a [RawStmt],
    body: &'a [RawStmt],
) -> Result<Row<Stmt>, CheckFail>
    ensures value { GivesChecked (loop_answer place.old step.now body.now) result }
    ensures place { OnOk result (place.new ≡ place_passed place.old (parts_all body.now ++ parts_all step.now)) }
{
    let last = step_of(alloc, place, step, body)?;
    let mut inside = block(alloc, place, body)?;
    pass_all(place, step)?;
    inside.append(last)?;
    Ok(inside)
}

/// A `for` with these parts. The statements of its initialiser are put behind those that are done.
#[cycle(statements)]
fn counted<'a>(
    alloc: Global,
    place: &mut Place<'a>,
    first: &'a [RawStmt],
    step: &'a [RawStmt],
    body: &'a [RawStmt],
    cond: &RawExpr,
    done: &mut Row<Stmt>,
) -> Result<Stmt, CheckFail>
    ensures value { (line : ℕ) (marked : Bool) →
        GivesChecked (onto done.old (statement_answer place.old (tree.For line marked first.now cond.now step.now body.now))) (with_last done.new result) }
    ensures place { (line : ℕ) (marked : Bool) → OnOk result (place.new ≡ place_after place.old (tree.For line marked first.now cond.now step.now body.now)) }
{
    let count = place.names.len();
    statements(alloc, place, first, done)?;
    let (site, cond) = evaluation(alloc, place, cond)?;
    let body = looped(alloc, place, step, body)?;
    place.names.keep(count);
    Ok(Stmt::While { site, cond, body })
}

/// The last of the statements that one stands for. Those before it, of a `for`'s initialiser, are put behind those that are
/// done.
#[tactic(auto, using(crate::proofs::PlaceLemmas::after_forms, crate::proofs::StatementLemmas::statement_answers))]
#[cycle(statements)]
pub fn statement<'a>(
    alloc: Global,
    place: &mut Place<'a>,
    s: &'a RawStmt,
    done: &mut Row<Stmt>,
) -> Result<Stmt, CheckFail>
    ensures value { GivesChecked (onto done.old (statement_answer place.old s.now)) (with_last done.new result) }
    ensures place { OnOk result (place.new ≡ place_after place.old s.now) }
{
    match s {
        RawStmt::Declare { name, value, .. } => declare(alloc, place, name, value),
        RawStmt::Assign { name, value } => assign(alloc, place, name, value),
        RawStmt::Store { name, index, value } => store(alloc, place, name, index, value),
        RawStmt::Call { name, args } => call(alloc, place, name, args.as_slice()),
        RawStmt::Print { value, .. } => print(alloc, place, value),
        RawStmt::Break { cond, .. } => exit(alloc, place, cond),
        RawStmt::If {
            cond,
            then_part,
            else_part,
            ..
        } => {
            let (one, two) = (then_part.as_slice(), else_part.as_slice());
            conditional(alloc, place, one, two, cond)
        }
        RawStmt::While { cond, body, .. } => repeated(alloc, place, body.as_slice(), cond),
        RawStmt::For {
            first,
            cond,
            step,
            body,
            ..
        } => {
            let (first, step, body) = (first.as_slice(), step.as_slice(), body.as_slice());
            counted(alloc, place, first, step, body, cond, done)
        }
    }
}

/// Statements one after the other, put behind those that are done. Their names stay visible.
#[cycle(statements)]
pub fn statements<'a>(
    alloc: Global,
    place: &mut Place<'a>,
    all: &'a [RawStmt],
    done: &mut Row<Stmt>,
) -> Result<(), CheckFail>
    ensures value { GivesChecked (onto done.old (block_answer place.old all.now)) (with_all done.new result) }
    ensures place { OnOk result (place.new ≡ place_after_all place.old all.now) }
{
    for s in all {
        let last = statement(alloc, place, s, done)?;
        done.push(last)?;
    }
    Ok(())
}

/// The statements of a block, at whose end its names are given up.
#[tactic(auto, using(crate::proofs::PlaceLemmas::block_left))]
#[cycle(statements)]
pub fn block<'a>(
    alloc: Global,
    place: &mut Place<'a>,
    all: &'a [RawStmt],
) -> Result<Row<Stmt>, CheckFail>
    ensures value { GivesChecked (block_answer place.old all.now) result }
    ensures place { OnOk result (place.new ≡ place_passed place.old (parts_all all.now)) }
{
    let count = place.names.len();
    let mut done = Row::new(alloc);
    statements(alloc, place, all, &mut done)?;
    place.names.keep(count);
    Ok(done)
}

/// The step of a loop, which the text has before the body. Its numbers come behind the body's, so the place is left as it was.
#[cycle(statements)]
fn step_of<'a>(
    alloc: Global,
    place: &mut Place<'a>,
    step: &'a [RawStmt],
    body: &'a [RawStmt],
) -> Result<Row<Stmt>, CheckFail>
    ensures value { GivesChecked (block_answer (place_passed place.old (parts_all body.now)) step.now) result }
    ensures place { OnOk result (place.new ≡ place.old) }
{
    let start = place.numbers();
    pass_all(place, body)?;
    let last = block(alloc, place, step)?;
    place.renumber(start);
    Ok(last)
}
