//! Expressions, by a descent through their levels.

ghost use Rattle.std.specs.Prelude.{◌≡◌, IfOk};
ghost use Rattle.dp_parse.specs.Levels as levels;
ghost use Rattle.dp_tokens.specs.Steps.{ReadsPart};
ghost use Rattle.dp_parse.specs.steps.Expressions as spec;

use crate::level::{Join, Level, join_at, operands, prefix_at};
use dp_base::{Boxed, NoMemory, Row, UnOp};
use dp_tokens::{PartFail, Symbol, Tokens, name, number};
use dp_tree::{Name, RawExpr};
use std::alloc::Global;

/// A whole expression.
#[tactic(auto, unfolding(crate::specs::steps::Expressions::whole))]
pub fn whole(alloc: Global, tokens: &mut Tokens<'_, '_>) -> Result<RawExpr, PartFail>
    ensures { ReadsPart (spec.whole tokens.old) result tokens.new }
{
    // Each level of nesting takes a token.
    let depth = tokens.len();
    nested(alloc, tokens, depth, Level::Or)
}

/// An expression of the level that nests at most `depth` deep.
#[cycle(expression)]
fn nested(
    alloc: Global,
    tokens: &mut Tokens<'_, '_>,
    depth: usize,
    level: Level,
) -> Result<RawExpr, PartFail>
    ensures { ReadsPart (spec.nested depth level tokens.old) result tokens.new }
{
    if depth == 0 {
        return Err(PartFail::Refused);
    }
    expression(alloc, tokens, depth - 1, level)
}

/// An expression of the level, in which others nest at most `depth` deep.
#[cycle(expression)]
fn expression(
    alloc: Global,
    tokens: &mut Tokens<'_, '_>,
    depth: usize,
    level: Level,
) -> Result<RawExpr, PartFail>
    ensures { ReadsPart (spec.expression (spec.nested depth) level tokens.old) result tokens.new }
{
    let Some(inner) = operands(level) else {
        return primary(alloc, tokens, depth);
    };
    if let Some(op) = prefix_at(level, tokens.peek()) {
        tokens.advance();
        let operand = nested(alloc, tokens, depth, level)?;
        return Ok(prefixed(alloc, op, operand)?);
    }
    let mut found = expression(alloc, tokens, depth, inner)?;
    while let Some(join) = join_at(level, tokens.peek()) {
        tokens.advance();
        let right = expression(alloc, tokens, depth, inner)?;
        found = joined(alloc, join, found, right)?;
    }
    Ok(found)
}

#[cycle(expression)]
#[tactic(auto, unfolding(crate::specs::steps::Expressions::primary, crate::specs::steps::Expressions::parenthesized))]
fn primary(alloc: Global, tokens: &mut Tokens<'_, '_>, depth: usize) -> Result<RawExpr, PartFail>
    ensures { ReadsPart (spec.primary (spec.nested depth) tokens.old) result tokens.new }
{
    match tokens.peek() {
        Symbol::Number => Ok(RawExpr::Number(number(tokens)?)),
        Symbol::Name => {
            let name = name(alloc, tokens)?;
            variable(alloc, tokens, depth, name)
        }
        _ => {
            tokens.expect(Symbol::OpenParen)?;
            let inside = nested(alloc, tokens, depth, Level::Or)?;
            tokens.expect(Symbol::CloseParen)?;
            Ok(inside)
        }
    }
}

/// The variable of the name, with its index where one follows.
#[cycle(expression)]
#[tactic(auto, unfolding(crate::specs::steps::Expressions::variable))]
fn variable(
    alloc: Global,
    tokens: &mut Tokens<'_, '_>,
    depth: usize,
    name: Name,
) -> Result<RawExpr, PartFail>
    ensures { ReadsPart (spec.variable (spec.nested depth) name tokens.old) result tokens.new }
{
    if !tokens.eat(Symbol::OpenBracket) {
        return Ok(RawExpr::Scalar(name));
    }
    let index = nested(alloc, tokens, depth, Level::Or)?;
    tokens.expect(Symbol::CloseBracket)?;
    Ok(RawExpr::Element(name, Boxed::new(alloc, index)?))
}

fn prefixed(alloc: Global, op: UnOp, operand: RawExpr) -> Result<RawExpr, NoMemory>
    ensures { IfOk result (λ e. e ≡ RawExpr.Unary op operand) }
{
    Ok(RawExpr::Unary(op, Boxed::new(alloc, operand)?))
}

fn joined(alloc: Global, join: Join, left: RawExpr, right: RawExpr) -> Result<RawExpr, NoMemory>
    ensures { IfOk result (λ e. e ≡ levels.joined_trees join left right) }
{
    let left = Boxed::new(alloc, left)?;
    let right = Boxed::new(alloc, right)?;
    Ok(match join {
        Join::Or => RawExpr::Or(left, right),
        Join::And => RawExpr::And(left, right),
        Join::Binary(op) => RawExpr::Binary(op, left, right),
    })
}

/// One expression or more, with commas between.
pub fn list(alloc: Global, tokens: &mut Tokens<'_, '_>) -> Result<Row<RawExpr>, PartFail>
    ensures { ReadsPart (spec.list tokens.old) result tokens.new }
{
    let mut found = Row::new(alloc);
    loop {
        found.push(whole(alloc, tokens)?)?;
        if !tokens.eat(Symbol::Comma) {
            return Ok(found);
        }
    }
}
