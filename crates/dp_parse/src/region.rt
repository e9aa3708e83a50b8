//! Regions, in whose bodies early exits may stand.

ghost use Rattle.std.specs.Prelude.{◌≡◌, ◌≢◌, Err};
ghost use Rattle.dp_tokens.specs.declared.fail.PartFail.TheVariants as fail;
ghost use Rattle.dp_tokens.specs.Steps.{ReadsPart};
ghost use Rattle.dp_parse.specs.steps.Statements.{statement as plain};
ghost use Rattle.dp_parse.specs.steps.Regions as spec;

use crate::head::head;
use crate::statement::{block, condition, otherwise, statement};
use dp_base::Row;
use dp_tokens::{PartFail, Symbol, Tokens};
use dp_tree::{RawExpr, RawStmt};
use std::alloc::Global;

/// An exit behind its condition, without braces.
#[tactic(auto, unfolding(crate::specs::steps::Regions::bare))]
fn bare(tokens: &mut Tokens<'_, '_>, line: u32, cond: RawExpr) -> Result<RawStmt, PartFail>
    ensures reads { ReadsPart (spec.bare line cond tokens.old) result tokens.new }
    ensures decides { result ≢ Err fail.NoMemory }
{
    tokens.expect(Symbol::Break)?;
    tokens.expect(Symbol::Semicolon)?;
    Ok(RawStmt::Break { line, cond })
}

/// The same in braces.
#[tactic(auto, unfolding(crate::specs::steps::Regions::braced))]
fn braced(tokens: &mut Tokens<'_, '_>, line: u32, cond: RawExpr) -> Result<RawStmt, PartFail>
    ensures reads { ReadsPart (spec.braced line cond tokens.old) result tokens.new }
    ensures decides { result ≢ Err fail.NoMemory }
{
    tokens.expect(Symbol::OpenBrace)?;
    let exit = bare(tokens, line, cond)?;
    tokens.expect(Symbol::CloseBrace)?;
    Ok(exit)
}

/// Whether an exit in braces comes next.
#[tactic(auto, unfolding(crate::specs::steps::Regions::leads_out))]
fn leads_out(tokens: &Tokens<'_, '_>) -> bool
    ensures { result ≡ spec.leads_out tokens.now }
{
    tokens.sees(Symbol::OpenBrace) && tokens.sees_second(Symbol::Break)
}

/// An `if` behind its condition.
#[tactic(auto, unfolding(crate::specs::steps::Regions::branches))]
fn branches(
    alloc: Global,
    tokens: &mut Tokens<'_, '_>,
    depth: usize,
    line: u32,
    cond: RawExpr,
) -> Result<RawStmt, PartFail>
    ensures { ReadsPart (spec.branches (plain depth) line cond tokens.old) result tokens.new }
{
    let then_part = block(alloc, tokens, depth)?;
    let else_part = otherwise(alloc, tokens, depth)?;
    Ok(RawStmt::If {
        line,
        cond,
        then_part,
        else_part,
    })
}

/// What follows an `if` and its condition.
#[tactic(auto, unfolding(crate::specs::steps::Regions::tested))]
fn tested(
    alloc: Global,
    tokens: &mut Tokens<'_, '_>,
    depth: usize,
    line: u32,
    cond: RawExpr,
) -> Result<RawStmt, PartFail>
    ensures { ReadsPart (spec.tested (plain depth) line cond tokens.old) result tokens.new }
{
    if tokens.sees(Symbol::Break) {
        return bare(tokens, line, cond);
    }
    if leads_out(tokens) {
        return braced(tokens, line, cond);
    }
    branches(alloc, tokens, depth, line, cond)
}

#[tactic(auto, unfolding(crate::specs::steps::Regions::branch))]
fn branch(alloc: Global, tokens: &mut Tokens<'_, '_>, depth: usize) -> Result<RawStmt, PartFail>
    ensures { ReadsPart (spec.branch (plain depth) tokens.old) result tokens.new }
{
    let line = tokens.expect(Symbol::If)?.line;
    let cond = condition(alloc, tokens)?;
    tested(alloc, tokens, depth, line, cond)
}

/// A statement of a region's body, which may be an early exit.
#[tactic(auto, unfolding(crate::specs::steps::Regions::inside))]
fn inside(alloc: Global, tokens: &mut Tokens<'_, '_>, depth: usize) -> Result<RawStmt, PartFail>
    ensures { ReadsPart (spec.inside (plain depth) tokens.old) result tokens.new }
{
    if tokens.sees(Symbol::If) {
        return branch(alloc, tokens, depth);
    }
    statement(alloc, tokens, depth)
}

#[tactic(auto, unfolding(crate::specs::steps::Regions::body))]
fn body(alloc: Global, tokens: &mut Tokens<'_, '_>, depth: usize) -> Result<Row<RawStmt>, PartFail>
    ensures { ReadsPart (spec.body (plain depth) tokens.old) result tokens.new }
{
    tokens.expect(Symbol::OpenBrace)?;
    let mut body = Row::new(alloc);
    while !tokens.sees(Symbol::CloseBrace) {
        body.push(inside(alloc, tokens, depth)?)?;
    }
    tokens.expect(Symbol::CloseBrace)?;
    Ok(body)
}

/// A region, from its `while` on.
#[tactic(auto, unfolding(crate::specs::steps::Regions::repeated))]
fn repeated(alloc: Global, tokens: &mut Tokens<'_, '_>, depth: usize) -> Result<RawStmt, PartFail>
    ensures { ReadsPart (spec.repeated (plain depth) tokens.old) result tokens.new }
{
    let line = tokens.expect(Symbol::While)?.line;
    let cond = condition(alloc, tokens)?;
    let body = body(alloc, tokens, depth)?;
    Ok(RawStmt::While {
        line,
        marked: true,
        cond,
        body,
    })
}

/// A region, from its `for` on.
#[tactic(auto, unfolding(crate::specs::steps::Regions::counted))]
fn counted(alloc: Global, tokens: &mut Tokens<'_, '_>, depth: usize) -> Result<RawStmt, PartFail>
    ensures { ReadsPart (spec.counted (plain depth) tokens.old) result tokens.new }
{
    let line = tokens.expect(Symbol::For)?.line;
    let head = head(alloc, tokens)?;
    let body = body(alloc, tokens, depth)?;
    Ok(head.with_body(line, true, body))
}

/// A region, from behind its mark on.
#[tactic(auto, unfolding(crate::specs::steps::Regions::region))]
pub fn region(alloc: Global, tokens: &mut Tokens<'_, '_>, depth: usize) -> Result<RawStmt, PartFail>
    ensures { ReadsPart (spec.region (plain depth) tokens.old) result tokens.new }
{
    if tokens.sees(Symbol::For) {
        return counted(alloc, tokens, depth);
    }
    repeated(alloc, tokens, depth)
}
