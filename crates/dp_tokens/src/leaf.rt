//! Names and numbers.

ghost use Rattle.std.specs.Prelude.{◌≡◌, ◌≢◌, Err};
ghost use Rattle.dp_base.specs.Arithmetic.{is_zero};
ghost use Rattle.dp_tokens.specs.declared.fail.PartFail.TheVariants as fail;
ghost use Rattle.dp_tokens.specs.Steps as steps;
ghost use Rattle.dp_tokens.specs.Numbers as numbers;
ghost use Rattle.dp_tokens.specs.Steps.{ReadsPart};

use crate::fail::PartFail;
use crate::symbol::Symbol;
use crate::tokens::Tokens;
use dp_base::Row;
use dp_tree::Name;
use std::alloc::Global;

/// The greatest number that a token can be.
const MAX_NUMBER: u64 = 9_223_372_036_854_775_807;

/// A name, with its line.
#[tactic(auto, unfolding(crate::specs::Steps::name))]
pub fn name(alloc: Global, tokens: &mut Tokens<'_, '_>) -> Result<Name, PartFail>
    ensures { ReadsPart (steps.name tokens.old) result tokens.new }
{
    let token = tokens.expect(Symbol::Name)?;
    Ok(Name {
        text: Row::from_slice(alloc, token.text)?,
        line: token.line,
    })
}

/// A number.
#[tactic(auto, unfolding(crate::specs::Numbers::number))]
pub fn number(tokens: &mut Tokens<'_, '_>) -> Result<i64, PartFail>
    ensures reads { ReadsPart (numbers.number tokens.old) result tokens.new }
    ensures decides { result ≢ Err fail.NoMemory }
{
    match tokens.next_number() {
        Some(value) => {
            tokens.advance();
            Ok(value)
        }
        None => Err(PartFail::Refused),
    }
}

/// Whether the number 0 comes next.
#[tactic(auto, unfolding(crate::specs::Numbers::sees_zero))]
pub fn sees_zero(tokens: &Tokens<'_, '_>) -> bool
    ensures { result ≡ numbers.sees_zero tokens.now }
{
    match tokens.next_number() {
        Some(value) => is_zero(value),
        None => false,
    }
}

/// The value of the digits, if it is a token's.
pub fn value(digits: &[u8]) -> Option<i64>
    ensures { result ≡ numbers.number_value digits.now }
{
    let mut value = 0u64;
    for digit in digits {
        if !digit.is_ascii_digit() {
            return None;
        }
        value = value
            .saturating_mul(10)
            .saturating_add(u64::from(*digit - b'0'));
        if value > MAX_NUMBER {
            return None;
        }
    }
    Some(value as i64)
}

#[tactic(auto, unfolding(dp_base::specs::Arithmetic::is_zero))]
fn is_zero(n: i64) -> bool
    ensures { result ≡ is_zero n }
{
    n == 0
}

/// The number with its sign turned.
#[tactic(auto, unfolding(crate::specs::Numbers::negated))]
pub fn negated(n: i64) -> Option<i64>
    ensures { result ≡ numbers.negated n }
{
    n.checked_neg()
}
