//! Statements without others in them.

ghost use Rattle.std.specs.Prelude.{◌≡◌, ℕ, [], OnOk};
ghost use Rattle.dp_tree.specs.declared.raw.RawStmt.TheVariants as tree;
ghost use Rattle.dp_check.specs.Place.{sited, with_scalar};
ghost use Rattle.dp_check.specs.Answer.{GivesChecked, with_last, statement_answer};

use crate::evaluation::evaluation;
use crate::place::Place;
use crate::{CheckFail, expr, uses};
use dp_tree::{Name, RawExpr, Stmt};
use std::alloc::Global;

#[tactic(auto, using(crate::proofs::StatementLemmas::statement_answers))]
pub fn declare<'a>(
    alloc: Global,
    place: &mut Place<'a>,
    name: &'a Name,
    value: &RawExpr,
) -> Result<Stmt, CheckFail>
    ensures value { (line : ℕ) → GivesChecked (statement_answer place.old (tree.Declare line name.now value.now)) (with_last [] result) }
    ensures place { OnOk result (place.new ≡ with_scalar (sited place.old) name.now) }
{
    uses::undeclared(&place.names, name)?;
    let (site, value) = evaluation(alloc, place, value)?;
    let var = place.declare_scalar(name)?;
    Ok(Stmt::Assign { site, var, value })
}

#[tactic(auto, using(crate::proofs::StatementLemmas::statement_answers))]
pub fn assign(
    alloc: Global,
    place: &mut Place<'_>,
    name: &Name,
    value: &RawExpr,
) -> Result<Stmt, CheckFail>
    ensures value { GivesChecked (statement_answer place.old (tree.Assign name.now value.now)) (with_last [] result) }
    ensures place { OnOk result (place.new ≡ sited place.old) }
{
    let var = uses::assigned(&place.names, name)?;
    let (site, value) = evaluation(alloc, place, value)?;
    Ok(Stmt::Assign { site, var, value })
}

#[tactic(auto, using(crate::proofs::StatementLemmas::statement_answers))]
pub fn store(
    alloc: Global,
    place: &mut Place<'_>,
    name: &Name,
    index: &RawExpr,
    value: &RawExpr,
) -> Result<Stmt, CheckFail>
    ensures value { GivesChecked (statement_answer place.old (tree.Store name.now index.now value.now)) (with_last [] result) }
    ensures place { OnOk result (place.new ≡ sited place.old) }
{
    let var = uses::assigned_element(&place.names, name)?;
    let index = expr::resolve(alloc, &place.names, index)?;
    let (site, value) = evaluation(alloc, place, value)?;
    Ok(Stmt::Store {
        site,
        var,
        index,
        value,
    })
}

#[tactic(auto, using(crate::proofs::StatementLemmas::statement_answers))]
pub fn call(
    alloc: Global,
    place: &Place<'_>,
    name: &Name,
    args: &[RawExpr],
) -> Result<Stmt, CheckFail>
    ensures { GivesChecked (statement_answer place.now (tree.Call name.now args.now)) (with_last [] result) }
{
    let function = uses::called(&place.names, name, args.len())?;
    let args = expr::resolve_all(alloc, &place.names, args)?;
    Ok(Stmt::Call {
        function,
        line: name.line,
        args,
    })
}

#[tactic(auto, using(crate::proofs::StatementLemmas::statement_answers))]
pub fn print(alloc: Global, place: &mut Place<'_>, value: &RawExpr) -> Result<Stmt, CheckFail>
    ensures value { (line : ℕ) → GivesChecked (statement_answer place.old (tree.Print line value.now)) (with_last [] result) }
    ensures place { OnOk result (place.new ≡ sited place.old) }
{
    let (site, value) = evaluation(alloc, place, value)?;
    Ok(Stmt::Print { site, value })
}

#[tactic(auto, using(crate::proofs::StatementLemmas::statement_answers))]
pub fn exit(alloc: Global, place: &mut Place<'_>, cond: &RawExpr) -> Result<Stmt, CheckFail>
    ensures value { (line : ℕ) → GivesChecked (statement_answer place.old (tree.Break line cond.now)) (with_last [] result) }
    ensures place { OnOk result (place.new ≡ sited place.old) }
{
    let (site, cond) = evaluation(alloc, place, cond)?;
    Ok(Stmt::Break { site, cond })
}
