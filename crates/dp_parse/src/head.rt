//! Assignments and declarations without their semicolons, and what a `for` has in its parentheses.

ghost use Rattle.std.specs.Prelude.{◌≡◌, IfOk, [], ◌∷◌};
ghost use Rattle.dp_tokens.specs.Steps.{ReadsPart};
ghost use Rattle.dp_parse.specs.steps.Heads as spec;

use crate::expression::whole;
use dp_base::{NoMemory, Row};
use dp_tokens::{PartFail, Symbol, Tokens, name};
use dp_tree::{Name, RawExpr, RawStmt};
use std::alloc::Global;

/// The value after a `=`.
#[tactic(auto, unfolding(crate::specs::steps::Heads::value))]
fn value(alloc: Global, tokens: &mut Tokens<'_, '_>) -> Result<RawExpr, PartFail>
    ensures { ReadsPart (spec.value tokens.old) result tokens.new }
{
    tokens.expect(Symbol::Assign)?;
    whole(alloc, tokens)
}

#[tactic(auto, unfolding(crate::specs::steps::Heads::declare))]
pub fn declare(alloc: Global, tokens: &mut Tokens<'_, '_>) -> Result<RawStmt, PartFail>
    ensures { ReadsPart (spec.declare tokens.old) result tokens.new }
{
    let line = tokens.expect(Symbol::Int)?.line;
    let name = name(alloc, tokens)?;
    let value = value(alloc, tokens)?;
    Ok(RawStmt::Declare { line, name, value })
}

/// An assignment to an element, from its bracket on.
#[tactic(auto, unfolding(crate::specs::steps::Heads::store))]
fn store(alloc: Global, tokens: &mut Tokens<'_, '_>, name: Name) -> Result<RawStmt, PartFail>
    ensures { ReadsPart (spec.store name tokens.old) result tokens.new }
{
    tokens.expect(Symbol::OpenBracket)?;
    let index = whole(alloc, tokens)?;
    tokens.expect(Symbol::CloseBracket)?;
    let value = value(alloc, tokens)?;
    Ok(RawStmt::Store { name, index, value })
}

/// An assignment, from behind its name on.
#[tactic(auto, unfolding(crate::specs::steps::Heads::assign))]
pub fn assign(alloc: Global, tokens: &mut Tokens<'_, '_>, name: Name) -> Result<RawStmt, PartFail>
    ensures { ReadsPart (spec.assign name tokens.old) result tokens.new }
{
    if tokens.sees(Symbol::OpenBracket) {
        return store(alloc, tokens, name);
    }
    let value = value(alloc, tokens)?;
    Ok(RawStmt::Assign { name, value })
}

#[tactic(auto, unfolding(crate::specs::steps::Heads::simple))]
fn simple(alloc: Global, tokens: &mut Tokens<'_, '_>) -> Result<RawStmt, PartFail>
    ensures { ReadsPart (spec.simple tokens.old) result tokens.new }
{
    let name = name(alloc, tokens)?;
    assign(alloc, tokens, name)
}

/// The initialiser of a `for`.
#[tactic(auto, unfolding(crate::specs::steps::Heads::first))]
fn first(alloc: Global, tokens: &mut Tokens<'_, '_>) -> Result<RawStmt, PartFail>
    ensures { ReadsPart (spec.first tokens.old) result tokens.new }
{
    if tokens.sees(Symbol::Int) {
        return declare(alloc, tokens);
    }
    simple(alloc, tokens)
}

fn only(alloc: Global, statement: RawStmt) -> Result<Row<RawStmt>, NoMemory>
    ensures { IfOk result (λ row. row ≡ statement ∷ []) }
{
    let mut row = Row::new(alloc);
    row.push(statement)?;
    Ok(row)
}

/// What a `for` has in its parentheses: the initialiser and the step have one statement each.
pub struct Header {
    pub first: Row<RawStmt>,
    pub cond: RawExpr,
    pub step: Row<RawStmt>,
}

impl Drop for Header {
    fn drop(self) {
        let Header {
            first: _,
            cond: _,
            step: _,
        } = self;
    }
}

impl Header {
    /// The `for` with this body.
    pub fn with_body(self, line: u32, marked: bool, body: Row<RawStmt>) -> RawStmt
        ensures { result ≡ RawStmt.For line marked self.first self.cond self.step body }
    {
        let Header { first, cond, step } = self;
        RawStmt::For {
            line,
            marked,
            first,
            cond,
            step,
            body,
        }
    }
}

#[tactic(auto, unfolding(crate::specs::steps::Heads::head))]
pub fn head(alloc: Global, tokens: &mut Tokens<'_, '_>) -> Result<Header, PartFail>
    ensures { ReadsPart (spec.head tokens.old) result tokens.new }
{
    tokens.expect(Symbol::OpenParen)?;
    let first = only(alloc, first(alloc, tokens)?)?;
    tokens.expect(Symbol::Semicolon)?;
    let cond = whole(alloc, tokens)?;
    tokens.expect(Symbol::Semicolon)?;
    let step = only(alloc, simple(alloc, tokens)?)?;
    tokens.expect(Symbol::CloseParen)?;
    Ok(Header { first, cond, step })
}
