//! The lines of statements: each statement a line, and the ends of what stands inside it.
ghost use Rattle.std.specs.Prelude.{◌≡◌, ◌++◌, OnOk, codes};
ghost use Rattle.dp_tree_text.specs.StatementText as spec;

use crate::expressions::put_expr;
use dp_base::{NoMemory, Row, SiteId, VarId};
use dp_text::put_labelled;
use dp_tree::{Expr, Stmt};

/// A word, a site and what is evaluated there.
fn put_evaluated(out: &mut Row<u8>, word: &[u8], site: SiteId, value: &Expr) -> Result<(), NoMemory>
    ensures { OnOk result (out.new ≡ out.old ++ spec.evaluated_text word.now site value.now) }
{
    put_labelled(out, word, u64::from(site.0))?;
    put_expr(out, value)?;
    out.push(b'\n')
}

fn put_assign(out: &mut Row<u8>, site: SiteId, var: VarId, value: &Expr) -> Result<(), NoMemory>
    ensures { OnOk result (out.new ≡ out.old ++ spec.assign_text site var value.now) }
{
    put_labelled(out, b"assign ", u64::from(site.0))?;
    put_labelled(out, b" ", u64::from(var.0))?;
    put_expr(out, value)?;
    out.push(b'\n')
}

fn put_store(
    out: &mut Row<u8>,
    site: SiteId,
    var: VarId,
    index: &Expr,
    value: &Expr,
) -> Result<(), NoMemory>
    ensures { OnOk result (out.new ≡ out.old ++ spec.store_text site var index.now value.now) }
{
    put_labelled(out, b"store ", u64::from(site.0))?;
    put_labelled(out, b" ", u64::from(var.0))?;
    put_expr(out, index)?;
    put_expr(out, value)?;
    out.push(b'\n')
}

fn put_region(out: &mut Row<u8>, region: u32, site: SiteId, cond: &Expr) -> Result<(), NoMemory>
    ensures { OnOk result (out.new ≡ out.old ++ spec.region_text region site cond.now) }
{
    put_labelled(out, b"region ", u64::from(region))?;
    put_evaluated(out, b" ", site, cond)
}

/// Appends the lines of a statement.
#[tactic(auto, using(crate::proofs::StatementForms::statement_forms))]
#[cycle(statements)]
fn put_statement(out: &mut Row<u8>, statement: &Stmt) -> Result<(), NoMemory>
    ensures { OnOk result (out.new ≡ out.old ++ spec.statement_text statement.now) }
{
    match statement {
        Stmt::Assign { site, var, value } => put_assign(out, *site, *var, value),
        Stmt::Store {
            site,
            var,
            index,
            value,
        } => put_store(out, *site, *var, index, value),
        Stmt::Print { site, value } => put_evaluated(out, b"print ", *site, value),
        Stmt::Break { site, cond } => put_evaluated(out, b"break ", *site, cond),
        Stmt::If {
            site,
            cond,
            then_part,
            else_part,
        } => {
            put_evaluated(out, b"if ", *site, cond)?;
            put_statements(out, then_part.as_slice())?;
            out.extend_from_slice(b"else\n")?;
            put_body(out, else_part.as_slice())
        }
        Stmt::While { site, cond, body } => {
            put_evaluated(out, b"while ", *site, cond)?;
            put_body(out, body.as_slice())
        }
        Stmt::Region {
            region,
            site,
            cond,
            body,
        } => {
            put_region(out, *region, *site, cond)?;
            put_body(out, body.as_slice())
        }
        Stmt::Call { .. } => Ok(()),
    }
}

/// Appends the lines of several, and of their end.
#[cycle(statements)]
fn put_body(out: &mut Row<u8>, body: &[Stmt]) -> Result<(), NoMemory>
    ensures { OnOk result (out.new ≡ out.old ++ (spec.statement_texts body.now ++ codes "end\n")) }
{
    put_statements(out, body)?;
    out.extend_from_slice(b"end\n")
}

/// Appends the lines of several.
#[cycle(statements)]
pub fn put_statements(out: &mut Row<u8>, all: &[Stmt]) -> Result<(), NoMemory>
    ensures { OnOk result (out.new ≡ out.old ++ spec.statement_texts all.now) }
{
    for statement in all {
        put_statement(out, statement)?;
    }
    Ok(())
}
