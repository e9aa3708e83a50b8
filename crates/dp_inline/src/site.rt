//! Statements without a block, and what every statement with a site begins with.

ghost use Rattle.std.specs.Prelude.{◌≡◌, ℕ, OnOk, IfOk};
ghost use Rattle.dp_tree.specs.declared.Stmt.TheVariants as tree;
ghost use Rattle.dp_tree.specs.Step.{line_of};
ghost use Rattle.dp_calls.specs.Tables.{new_site};
ghost use Rattle.dp_inline.specs.steps.Written.{written, expr_in, with_text_site, after_one};

use crate::piece::Writer;
use dp_base::{NoMemory, SiteId, VarId};
use dp_tree::{Expr, Program, Stmt};

/// The line of a site of the program's text.
pub fn line(p: &Program, site: SiteId) -> u32
    ensures { result ≡ line_of p.now site }
{
    match p.sites.get(site.0.saturating_sub(1) as usize) {
        Some(info) => info.line,
        None => 0,
    }
}

/// The number and the condition of a statement whose site is this one.
pub fn head(
    p: &Program,
    region: u32,
    out: &mut Writer,
    site: SiteId,
    cond: &Expr,
) -> Result<(SiteId, Expr), NoMemory>
    ensures number { IfOk result (λ head. head.0 ≡ new_site (written out.old).tables) }
    ensures cond { IfOk result (λ head. head.1 ≡ expr_in (written out.old).names cond.now) }
    ensures after { OnOk result (written out.new ≡ with_text_site p.now region site (written out.old)) }
{
    let cond = out.rename(cond)?;
    let number = out.next()?;
    out.source_site(p, region, site)?;
    Ok((number, cond))
}

#[tactic(auto, using(crate::proofs::FormLemmas::forms))]
pub fn assign(
    p: &Program,
    region: u32,
    out: &mut Writer,
    site: SiteId,
    var: VarId,
    value: &Expr,
) -> Result<(), NoMemory>
    ensures { OnOk result ((depth : ℕ) → written out.new ≡ after_one p.now depth region (written out.old) (tree.Assign site var value.now)) }
{
    let value = out.rename(value)?;
    let number = out.next()?;
    out.source_site(p, region, site)?;
    out.declare(p, region, var.0)?;
    let var = out.names.target(var);
    out.put(Stmt::Assign {
        site: number,
        var,
        value,
    })?;
    Ok(())
}

#[tactic(auto, using(crate::proofs::FormLemmas::forms))]
pub fn store(
    p: &Program,
    region: u32,
    out: &mut Writer,
    site: SiteId,
    var: VarId,
    index: &Expr,
    value: &Expr,
) -> Result<(), NoMemory>
    ensures { OnOk result ((depth : ℕ) → written out.new ≡ after_one p.now depth region (written out.old) (tree.Store site var index.now value.now)) }
{
    let index = out.rename(index)?;
    let value = out.rename(value)?;
    let var = out.names.target(var);
    let number = out.next()?;
    out.source_site(p, region, site)?;
    out.put(Stmt::Store {
        site: number,
        var,
        index,
        value,
    })?;
    Ok(())
}

#[tactic(auto, using(crate::proofs::FormLemmas::forms))]
pub fn print(
    p: &Program,
    region: u32,
    out: &mut Writer,
    site: SiteId,
    value: &Expr,
) -> Result<(), NoMemory>
    ensures { OnOk result ((depth : ℕ) → written out.new ≡ after_one p.now depth region (written out.old) (tree.Print site value.now)) }
{
    let value = out.rename(value)?;
    let number = out.next()?;
    out.source_site(p, region, site)?;
    out.put(Stmt::Print {
        site: number,
        value,
    })?;
    Ok(())
}

#[tactic(auto, using(crate::proofs::FormLemmas::forms))]
pub fn exit(
    p: &Program,
    region: u32,
    out: &mut Writer,
    site: SiteId,
    cond: &Expr,
) -> Result<(), NoMemory>
    ensures { OnOk result ((depth : ℕ) → written out.new ≡ after_one p.now depth region (written out.old) (tree.Break site cond.now)) }
{
    let cond = out.rename(cond)?;
    let number = out.next()?;
    out.source_site(p, region, site)?;
    out.put(Stmt::Break { site: number, cond })?;
    Ok(())
}
