//! Statements and blocks.

ghost use Rattle.dp_tokens.specs.Steps.{ReadsPart};
ghost use Rattle.dp_parse.specs.steps.Statements as spec;

use crate::expression::{list, whole};
use crate::head::{assign, declare, head};
use dp_base::Row;
use dp_tokens::{PartFail, Symbol, Tokens, name};
use dp_tree::{Name, RawExpr, RawStmt};
use std::alloc::Global;

/// An expression in parentheses.
#[tactic(auto, unfolding(crate::specs::steps::Statements::condition))]
pub fn condition(alloc: Global, tokens: &mut Tokens<'_, '_>) -> Result<RawExpr, PartFail>
    ensures { ReadsPart (spec.condition tokens.old) result tokens.new }
{
    tokens.expect(Symbol::OpenParen)?;
    let inside = whole(alloc, tokens)?;
    tokens.expect(Symbol::CloseParen)?;
    Ok(inside)
}

#[tactic(auto, unfolding(crate::specs::steps::Statements::arguments))]
fn arguments(alloc: Global, tokens: &mut Tokens<'_, '_>) -> Result<Row<RawExpr>, PartFail>
    ensures { ReadsPart (spec.arguments tokens.old) result tokens.new }
{
    if tokens.sees(Symbol::CloseParen) {
        return Ok(Row::new(alloc));
    }
    list(alloc, tokens)
}

#[tactic(auto, unfolding(crate::specs::steps::Statements::call))]
fn call(alloc: Global, tokens: &mut Tokens<'_, '_>, name: Name) -> Result<RawStmt, PartFail>
    ensures { ReadsPart (spec.call name tokens.old) result tokens.new }
{
    tokens.expect(Symbol::OpenParen)?;
    let args = arguments(alloc, tokens)?;
    tokens.expect(Symbol::CloseParen)?;
    tokens.semicolon()?;
    Ok(RawStmt::Call { name, args })
}

/// A statement that begins with a name.
#[tactic(auto, unfolding(crate::specs::steps::Statements::named))]
fn named(alloc: Global, tokens: &mut Tokens<'_, '_>) -> Result<RawStmt, PartFail>
    ensures { ReadsPart (spec.named tokens.old) result tokens.new }
{
    let name = name(alloc, tokens)?;
    if tokens.sees(Symbol::OpenParen) {
        return call(alloc, tokens, name);
    }
    let assigned = assign(alloc, tokens, name)?;
    tokens.semicolon()?;
    Ok(assigned)
}

#[tactic(auto, unfolding(crate::specs::steps::Statements::declaration))]
fn declaration(alloc: Global, tokens: &mut Tokens<'_, '_>) -> Result<RawStmt, PartFail>
    ensures { ReadsPart (spec.declaration tokens.old) result tokens.new }
{
    let declared = declare(alloc, tokens)?;
    tokens.semicolon()?;
    Ok(declared)
}

#[tactic(auto, unfolding(crate::specs::steps::Statements::print))]
fn print(alloc: Global, tokens: &mut Tokens<'_, '_>) -> Result<RawStmt, PartFail>
    ensures { ReadsPart (spec.print tokens.old) result tokens.new }
{
    let line = tokens.expect(Symbol::Print)?.line;
    let value = condition(alloc, tokens)?;
    tokens.semicolon()?;
    Ok(RawStmt::Print { line, value })
}

/// A statement in which others nest at most `depth` deep.
#[cycle(statement)]
#[tactic(auto, unfolding(crate::specs::steps::Statements::statement))]
pub fn statement(
    alloc: Global,
    tokens: &mut Tokens<'_, '_>,
    depth: usize,
) -> Result<RawStmt, PartFail>
    ensures { ReadsPart (spec.statement depth tokens.old) result tokens.new }
{
    if depth == 0 {
        return Err(PartFail::Refused);
    }
    match tokens.peek() {
        Symbol::Int => declaration(alloc, tokens),
        Symbol::Name => named(alloc, tokens),
        Symbol::Print => print(alloc, tokens),
        Symbol::While => repeated(alloc, tokens, depth - 1),
        Symbol::For => counted(alloc, tokens, depth - 1),
        _ => choice(alloc, tokens, depth - 1),
    }
}

/// A loop, from its `while` on.
#[cycle(statement)]
#[tactic(auto, unfolding(crate::specs::steps::Statements::repeated))]
fn repeated(alloc: Global, tokens: &mut Tokens<'_, '_>, depth: usize) -> Result<RawStmt, PartFail>
    ensures { ReadsPart (spec.repeated (spec.statement depth) tokens.old) result tokens.new }
{
    let line = tokens.expect(Symbol::While)?.line;
    let cond = condition(alloc, tokens)?;
    let body = block(alloc, tokens, depth)?;
    Ok(RawStmt::While {
        line,
        marked: false,
        cond,
        body,
    })
}

/// A loop, from its `for` on.
#[cycle(statement)]
#[tactic(auto, unfolding(crate::specs::steps::Statements::counted))]
fn counted(alloc: Global, tokens: &mut Tokens<'_, '_>, depth: usize) -> Result<RawStmt, PartFail>
    ensures { ReadsPart (spec.counted (spec.statement depth) tokens.old) result tokens.new }
{
    let line = tokens.expect(Symbol::For)?.line;
    let head = head(alloc, tokens)?;
    let body = block(alloc, tokens, depth)?;
    Ok(head.with_body(line, false, body))
}

#[cycle(statement)]
#[tactic(auto, unfolding(crate::specs::steps::Statements::choice))]
fn choice(alloc: Global, tokens: &mut Tokens<'_, '_>, depth: usize) -> Result<RawStmt, PartFail>
    ensures { ReadsPart (spec.choice (spec.statement depth) tokens.old) result tokens.new }
{
    let line = tokens.expect(Symbol::If)?.line;
    let cond = condition(alloc, tokens)?;
    let then_part = block(alloc, tokens, depth)?;
    let else_part = otherwise(alloc, tokens, depth)?;
    Ok(RawStmt::If {
        line,
        cond,
        then_part,
        else_part,
    })
}

/// What follows an `if` and its block: the part after an `else`, or nothing.
#[cycle(statement)]
#[tactic(auto, unfolding(crate::specs::steps::Statements::otherwise))]
pub fn otherwise(
    alloc: Global,
    tokens: &mut Tokens<'_, '_>,
    depth: usize,
) -> Result<Row<RawStmt>, PartFail>
    ensures { ReadsPart (spec.otherwise (spec.statement depth) tokens.old) result tokens.new }
{
    if !tokens.eat(Symbol::Else) {
        return Ok(Row::new(alloc));
    }
    if tokens.sees(Symbol::If) {
        let mut only = Row::new(alloc);
        only.push(statement(alloc, tokens, depth)?)?;
        return Ok(only);
    }
    block(alloc, tokens, depth)
}

/// Statements in braces, each of which nests at most `depth` deep.
#[cycle(statement)]
#[tactic(auto, unfolding(crate::specs::steps::Statements::block))]
pub fn block(
    alloc: Global,
    tokens: &mut Tokens<'_, '_>,
    depth: usize,
) -> Result<Row<RawStmt>, PartFail>
    ensures { ReadsPart (spec.block (spec.statement depth) tokens.old) result tokens.new }
{
    tokens.expect(Symbol::OpenBrace)?;
    let mut body = Row::new(alloc);
    while !tokens.sees(Symbol::CloseBrace) {
        body.push(statement(alloc, tokens, depth)?)?;
    }
    tokens.expect(Symbol::CloseBrace)?;
    Ok(body)
}
