//! Statements with their calls expanded.

ghost use Rattle.std.specs.Prelude.{◌≡◌, ℕ, OnOk, IfOk};
ghost use Rattle.dp_tree.specs.declared.Stmt.TheVariants as tree;
ghost use Rattle.dp_inline.specs.steps.Written.{written, emptied, after_one, after_list};

use crate::binding::bindings;
use crate::piece::Writer;
use crate::site::{assign, exit, head, line, print, store};
use dp_base::{NoMemory, Row, SiteId};
use dp_tree::{Expr, Program, Stmt};

#[cycle(expand)]
fn branch(
    p: &Program,
    depth: usize,
    region: u32,
    out: &mut Writer,
    site: SiteId,
    cond: &Expr,
    then_part: &Row<Stmt>,
    else_part: &Row<Stmt>,
) -> Result<(), NoMemory>
    ensures { OnOk result (written out.new ≡ after_one p.now depth region (written out.old) (tree.If site cond.now then_part.now else_part.now)) }
{
    let (site, cond) = head(p, region, out, site, cond)?;
    let then_part = block(p, depth, region, out, then_part)?;
    let else_part = block(p, depth, region, out, else_part)?;
    out.put(Stmt::If {
        site,
        cond,
        then_part,
        else_part,
    })?;
    Ok(())
}

#[cycle(expand)]
fn repeat(
    p: &Program,
    depth: usize,
    region: u32,
    out: &mut Writer,
    site: SiteId,
    cond: &Expr,
    body: &Row<Stmt>,
) -> Result<(), NoMemory>
    ensures { OnOk result (written out.new ≡ after_one p.now depth region (written out.old) (tree.While site cond.now body.now)) }
{
    let (site, cond) = head(p, region, out, site, cond)?;
    let body = block(p, depth, region, out, body)?;
    out.put(Stmt::While { site, cond, body })?;
    Ok(())
}

/// The statement is a region, so the region around it doesn't matter.
#[cycle(expand)]
fn marked(
    p: &Program,
    depth: usize,
    region: u32,
    out: &mut Writer,
    site: SiteId,
    cond: &Expr,
    body: &Row<Stmt>,
) -> Result<(), NoMemory>
    ensures { OnOk result ((around : ℕ) → written out.new ≡ after_one p.now depth around (written out.old) (tree.Region region site cond.now body.now)) }
{
    let line = line(p, site);
    let (site, cond) = head(p, region, out, site, cond)?;
    let body = block(p, depth, region, out, body)?;
    out.region(line, site)?;
    out.put(Stmt::Region {
        region,
        site,
        cond,
        body,
    })?;
    Ok(())
}

#[cycle(expand)]
fn call(
    p: &Program,
    depth: usize,
    region: u32,
    out: &mut Writer,
    function: u32,
    line: u32,
    args: &[Expr],
) -> Result<(), NoMemory>
    ensures { OnOk result (written out.new ≡ after_one p.now depth region (written out.old) (tree.Call function line args.now)) }
{
    if let Some(function) = p.functions.get(function as usize) {
        let caller = out.begin_call();
        let params = function.params.as_slice();
        bindings(p, region, line, &caller, out, params, args)?;
        if depth > 0 {
            statements(p, depth - 1, region, out, function.body.as_slice())?;
        }
        out.end_call(caller);
    }
    Ok(())
}

/// The statements of a block, apart from those before it.
#[cycle(expand)]
fn block(
    p: &Program,
    depth: usize,
    region: u32,
    out: &mut Writer,
    all: &Row<Stmt>,
) -> Result<Row<Stmt>, NoMemory>
    ensures code { IfOk result (λ code. code ≡ (after_list p.now depth region (emptied (written out.old)) all.now).code) }
    ensures after { OnOk result (written out.new ≡ record (after_list p.now depth region (emptied (written out.old)) all.now)
        { code = (written out.old).code }) }
{
    let before = out.begin_block();
    statements(p, depth, region, out, all.as_slice())?;
    Ok(out.end_block(before))
}

#[cycle(expand)]
fn statement(
    p: &Program,
    depth: usize,
    around: u32,
    out: &mut Writer,
    s: &Stmt,
) -> Result<(), NoMemory>
    ensures { OnOk result (written out.new ≡ after_one p.now depth around (written out.old) s.now) }
{
    match s {
        Stmt::Assign { site, var, value } => assign(p, around, out, *site, *var, value),
        Stmt::Store {
            site,
            var,
            index,
            value,
        } => store(p, around, out, *site, *var, index, value),
        Stmt::Print { site, value } => print(p, around, out, *site, value),
        Stmt::If {
            site,
            cond,
            then_part,
            else_part,
        } => branch(p, depth, around, out, *site, cond, then_part, else_part),
        Stmt::While { site, cond, body } => repeat(p, depth, around, out, *site, cond, body),
        Stmt::Region {
            region,
            site,
            cond,
            body,
        } => marked(p, depth, *region, out, *site, cond, body),
        Stmt::Break { site, cond } => exit(p, around, out, *site, cond),
        Stmt::Call {
            function,
            line,
            args,
        } => call(p, depth, around, out, *function, *line, args.as_slice()),
    }
}

/// Statements, one after the other, where calls nest at most so deep.
#[cycle(expand)]
pub fn statements(
    p: &Program,
    depth: usize,
    around: u32,
    out: &mut Writer,
    all: &[Stmt],
) -> Result<(), NoMemory>
    ensures { OnOk result (written out.new ≡ after_list p.now depth around (written out.old) all.now) }
{
    for s in all {
        statement(p, depth, around, out, s)?;
    }
    Ok(())
}
