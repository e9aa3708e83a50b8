//! The levels of an expression, and the operators of each.

ghost use Rattle.std.specs.Prelude.{◌≡◌};
ghost use Rattle.dp_parse.specs.Levels as spec;
ghost use Rattle.dp_parse.specs.steps.Operators as operators;

use dp_base::{BinOp, UnOp};
use dp_tokens::Symbol;

/// A level of an expression, from the loosest to the tightest (C99, 6.5).
#[derive(Clone, Copy)]
pub enum Level {
    Or,
    And,
    Equality,
    Relation,
    Sum,
    Product,
    Unary,
    Primary,
}

/// What an infix operator makes of its operands.
#[derive(Clone, Copy)]
pub enum Join {
    Or,
    And,
    Binary(BinOp),
}

/// The level of the operands, unless the level has no operator.
pub fn operands(level: Level) -> Option<Level>
    ensures { result ≡ spec.operands level }
{
    match level {
        Level::Or => Some(Level::And),
        Level::And => Some(Level::Equality),
        Level::Equality => Some(Level::Relation),
        Level::Relation => Some(Level::Sum),
        Level::Sum => Some(Level::Product),
        Level::Product => Some(Level::Unary),
        Level::Unary => Some(Level::Primary),
        Level::Primary => None,
    }
}

fn joining(symbol: Symbol) -> Option<(Level, Join)>
    ensures { result ≡ spec.joining symbol }
{
    match symbol {
        Symbol::Or => Some((Level::Or, Join::Or)),
        Symbol::And => Some((Level::And, Join::And)),
        Symbol::Equal => Some((Level::Equality, Join::Binary(BinOp::Eq))),
        Symbol::NotEqual => Some((Level::Equality, Join::Binary(BinOp::Ne))),
        Symbol::Less => Some((Level::Relation, Join::Binary(BinOp::Lt))),
        Symbol::LessEqual => Some((Level::Relation, Join::Binary(BinOp::Le))),
        Symbol::Greater => Some((Level::Relation, Join::Binary(BinOp::Gt))),
        Symbol::GreaterEqual => Some((Level::Relation, Join::Binary(BinOp::Ge))),
        Symbol::Plus => Some((Level::Sum, Join::Binary(BinOp::Add))),
        Symbol::Minus => Some((Level::Sum, Join::Binary(BinOp::Sub))),
        Symbol::Star => Some((Level::Product, Join::Binary(BinOp::Mul))),
        Symbol::Slash => Some((Level::Product, Join::Binary(BinOp::Div))),
        Symbol::Percent => Some((Level::Product, Join::Binary(BinOp::Rem))),
        _ => None,
    }
}

fn prefixing(symbol: Symbol) -> Option<(Level, UnOp)>
    ensures { result ≡ spec.prefixing symbol }
{
    match symbol {
        Symbol::Minus => Some((Level::Unary, UnOp::Neg)),
        Symbol::Not => Some((Level::Unary, UnOp::Not)),
        _ => None,
    }
}

fn same_level(a: Level, b: Level) -> bool
    ensures { result ≡ operators.same_level a b }
{
    a == b
}

/// What the symbol makes of two operands of the level, if it is an infix operator of it.
#[tactic(auto, unfolding(crate::specs::steps::Operators::join_at))]
pub fn join_at(level: Level, symbol: Symbol) -> Option<Join>
    ensures { result ≡ operators.join_at level symbol }
{
    match joining(symbol) {
        Some((own, join)) => same_level(own, level).then_some(join),
        None => None,
    }
}

/// The prefix operator of the level that the symbol is, if it is one.
#[tactic(auto, unfolding(crate::specs::steps::Operators::prefix_at))]
pub fn prefix_at(level: Level, symbol: Symbol) -> Option<UnOp>
    ensures { result ≡ operators.prefix_at level symbol }
{
    match prefixing(symbol) {
        Some((own, op)) => same_level(own, level).then_some(op),
        None => None,
    }
}
