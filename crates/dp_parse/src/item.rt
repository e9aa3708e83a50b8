//! Declarations at file scope, `main`, and the whole program.

ghost use Rattle.std.specs.Prelude.{◌≡◌, ◌≢◌, Err};
ghost use Rattle.dp_tokens.specs.declared.fail.PartFail.TheVariants as fail;
ghost use Rattle.dp_tokens.specs.Steps.{ReadsPart};
ghost use Rattle.dp_parse.specs.steps.Programs as spec;

use crate::region::region;
use crate::statement::{block, statement};
use dp_base::Row;
use dp_tokens::{PartFail, Symbol, Tokens, name, negated, number, sees_zero};
use dp_tree::{Name, RawItem, RawProgram, RawStmt};
use std::alloc::Global;

/// The start value after a `=`, with its sign.
#[tactic(auto, unfolding(crate::specs::steps::Programs::start))]
fn start(tokens: &mut Tokens<'_, '_>) -> Result<i64, PartFail>
    ensures reads { ReadsPart (spec.start tokens.old) result tokens.new }
    ensures decides { result ≢ Err fail.NoMemory }
{
    if tokens.eat(Symbol::Minus) {
        return negated(number(tokens)?).ok_or(PartFail::Refused);
    }
    number(tokens)
}

/// A variable at file scope, from its name on.
#[tactic(auto, unfolding(crate::specs::steps::Programs::variable))]
fn variable(alloc: Global, tokens: &mut Tokens<'_, '_>) -> Result<RawItem, PartFail>
    ensures { ReadsPart (spec.variable tokens.old) result tokens.new }
{
    let name = name(alloc, tokens)?;
    let item = match tokens.peek() {
        Symbol::OpenBracket => array(tokens, name)?,
        Symbol::Assign => {
            tokens.advance();
            let start = start(tokens)?;
            RawItem::Scalar { name, start }
        }
        _ => RawItem::Scalar { name, start: 0 },
    };
    tokens.expect(Symbol::Semicolon)?;
    Ok(item)
}

/// An array's length in its brackets.
#[tactic(auto, unfolding(crate::specs::steps::Programs::array))]
fn array(tokens: &mut Tokens<'_, '_>, name: Name) -> Result<RawItem, PartFail>
    ensures reads { ReadsPart (spec.array name tokens.old) result tokens.new }
    ensures decides { result ≢ Err fail.NoMemory }
{
    tokens.expect(Symbol::OpenBracket)?;
    if sees_zero(tokens) {
        return Err(PartFail::Refused);
    }
    let length = number(tokens)?;
    tokens.expect(Symbol::CloseBracket)?;
    Ok(RawItem::Array { name, length })
}

#[tactic(auto, unfolding(crate::specs::steps::Programs::param))]
fn param(alloc: Global, tokens: &mut Tokens<'_, '_>) -> Result<Name, PartFail>
    ensures { ReadsPart (spec.param tokens.old) result tokens.new }
{
    tokens.expect(Symbol::Int)?;
    name(alloc, tokens)
}

#[tactic(auto, unfolding(crate::specs::steps::Programs::params))]
fn params(alloc: Global, tokens: &mut Tokens<'_, '_>) -> Result<Row<Name>, PartFail>
    ensures { ReadsPart (spec.params tokens.old) result tokens.new }
{
    let mut found = Row::new(alloc);
    if tokens.sees(Symbol::CloseParen) {
        return Ok(found);
    }
    if tokens.eat(Symbol::Void) {
        return Ok(found);
    }
    loop {
        found.push(param(alloc, tokens)?)?;
        if !tokens.eat(Symbol::Comma) {
            return Ok(found);
        }
    }
}

/// A function, from its name on.
#[tactic(auto, unfolding(crate::specs::steps::Programs::function))]
fn function(alloc: Global, tokens: &mut Tokens<'_, '_>) -> Result<RawItem, PartFail>
    ensures { ReadsPart (spec.function tokens.old) result tokens.new }
{
    let name = name(alloc, tokens)?;
    tokens.expect(Symbol::OpenParen)?;
    let params = params(alloc, tokens)?;
    tokens.expect(Symbol::CloseParen)?;
    let depth = tokens.len();
    let body = block(alloc, tokens, depth)?;
    Ok(RawItem::Function { name, params, body })
}

/// A statement of `main`, which may be a region.
#[tactic(auto, unfolding(crate::specs::steps::Programs::top))]
fn top(alloc: Global, tokens: &mut Tokens<'_, '_>) -> Result<RawStmt, PartFail>
    ensures { ReadsPart (spec.top tokens.old) result tokens.new }
{
    let depth = tokens.len();
    if tokens.eat(Symbol::Mark) {
        region(alloc, tokens, depth)
    } else {
        statement(alloc, tokens, depth)
    }
}

/// A `return 0;` or nothing.
#[tactic(auto, unfolding(crate::specs::steps::Programs::returned))]
fn returned(tokens: &mut Tokens<'_, '_>) -> Result<(), PartFail>
    ensures reads { ReadsPart (spec.returned tokens.old) result tokens.new }
    ensures decides { result ≢ Err fail.NoMemory }
{
    if !tokens.eat(Symbol::Return) {
        return Ok(());
    }
    if !sees_zero(tokens) {
        return Err(PartFail::Refused);
    }
    number(tokens)?;
    tokens.expect(Symbol::Semicolon)?;
    Ok(())
}

/// The end of `main`, with its brace.
#[tactic(auto, unfolding(crate::specs::steps::Programs::end))]
fn end(tokens: &mut Tokens<'_, '_>) -> Result<(), PartFail>
    ensures reads { ReadsPart (spec.end tokens.old) result tokens.new }
    ensures decides { result ≢ Err fail.NoMemory }
{
    returned(tokens)?;
    tokens.expect(Symbol::CloseBrace)?;
    Ok(())
}

/// Whether the statements of `main` are over.
#[tactic(auto, unfolding(crate::specs::steps::Programs::ends))]
fn ends(tokens: &Tokens<'_, '_>) -> bool
    ensures { result ≡ spec.ends tokens.now }
{
    tokens.sees(Symbol::Return) || tokens.sees(Symbol::CloseBrace)
}

/// `main`, from its parenthesis on.
#[tactic(auto, unfolding(crate::specs::steps::Programs::main_part))]
fn main_part(alloc: Global, tokens: &mut Tokens<'_, '_>) -> Result<Row<RawStmt>, PartFail>
    ensures { ReadsPart (spec.main_part tokens.old) result tokens.new }
{
    tokens.expect(Symbol::OpenParen)?;
    tokens.eat(Symbol::Void);
    tokens.expect(Symbol::CloseParen)?;
    tokens.expect(Symbol::OpenBrace)?;
    let mut body = Row::new(alloc);
    while !ends(tokens) {
        body.push(top(alloc, tokens)?)?;
    }
    end(tokens)?;
    Ok(body)
}

/// What comes next in a program: a declaration, or `main`.
#[derive(Drop)]
enum Part {
    Item(RawItem),
    Main(Row<RawStmt>),
}

#[tactic(auto, unfolding(crate::specs::steps::Programs::part))]
fn next_part(alloc: Global, tokens: &mut Tokens<'_, '_>) -> Result<Part, PartFail>
    ensures { ReadsPart (spec.part tokens.old) result tokens.new }
{
    if tokens.eat(Symbol::Void) {
        return Ok(Part::Item(function(alloc, tokens)?));
    }
    tokens.expect(Symbol::Int)?;
    if tokens.eat(Symbol::Main) {
        return Ok(Part::Main(main_part(alloc, tokens)?));
    }
    Ok(Part::Item(variable(alloc, tokens)?))
}

/// A whole program, after which no token is left.
pub fn program(alloc: Global, tokens: &mut Tokens<'_, '_>) -> Result<RawProgram, PartFail>
    ensures { ReadsPart (spec.program tokens.old) result tokens.new }
{
    let mut items = Row::new(alloc);
    loop {
        match next_part(alloc, tokens)? {
            Part::Item(item) => items.push(item)?,
            Part::Main(main) => {
                if tokens.len() > 0 {
                    return Err(PartFail::Refused);
                }
                return Ok(RawProgram { items, main });
            }
        }
    }
}
