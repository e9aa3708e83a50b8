//! Numbers in ascending order, and the least of some numbers.

ghost use Rattle.std.specs.Prelude.{◌≡◌, filter, IsPermutation};
ghost use Rattle.std.specs.List.Sorted.{IsNonDecreasing};
ghost use Rattle.dp_plan.specs.Written as written;
ghost use Rattle.dp_plan.specs.Rules as rules;
ghost use Rattle.dp_plan_text.specs.steps.Tables as tables;

use dp_base::Row;

/// The numbers in ascending order.
pub fn in_order(numbers: Row<u32>) -> Row<u32>
    ensures permutation { IsPermutation numbers result }
    ensures ascending { IsNonDecreasing result }
{
    let mut items = numbers.into_vec();
    items.sort_unstable();
    Row::from_vec(items)
}

/// Whether the number is among these.
fn has(ascending: &[u32], number: u32) -> bool
    requires { IsNonDecreasing ascending.now }
    ensures { result ≡ written.has number ascending.now }
{
    match ascending.binary_search(&number) {
        Ok(_) => true,
        Err(_) => false,
    }
}

/// Whether the number isn't among these.
pub fn is_outside(ascending: &[u32], number: u32) -> bool
    requires { IsNonDecreasing ascending.now }
    ensures { result ≡ tables.is_outside ascending.now number }
{
    !has(ascending, number)
}

/// The lesser of a number and another, if there is one.
pub fn lesser(number: u32, other: Option<u32>) -> Option<u32>
    ensures { result ≡ rules.lesser number other }
{
    match other {
        None => Some(number),
        Some(least) => {
            if least < number {
                Some(least)
            } else {
                Some(number)
            }
        }
    }
}

/// The lesser of two numbers, where each may be missing.
pub fn lesser_of(one: Option<u32>, other: Option<u32>) -> Option<u32>
    ensures { result ≡ tables.lesser_of one other }
{
    match one {
        None => other,
        Some(number) => lesser(number, other),
    }
}

/// The least of the numbers.
pub fn least(numbers: &[u32]) -> Option<u32>
    ensures { result ≡ rules.least numbers.now }
{
    let mut found = None;
    for number in numbers {
        found = lesser(*number, found);
    }
    found
}

/// The least number that isn't among those in ascending order.
pub fn least_outside(numbers: &[u32], ascending: &[u32]) -> Option<u32>
    requires { IsNonDecreasing ascending.now }
    ensures { result ≡ rules.least (filter (tables.is_outside ascending.now) numbers.now) }
{
    let mut found = None;
    for number in numbers {
        if is_outside(ascending, *number) {
            found = lesser(*number, found);
        }
    }
    found
}

/// The least number that stands more than once among these.
pub fn least_repeated(ascending: &[u32]) -> Option<u32>
    requires { IsNonDecreasing ascending.now }
    ensures { result ≡ rules.least (filter (rules.occurs_again ascending.now) ascending.now) }
{
    for later in 1..ascending.len() {
        if ascending[later - 1] == ascending[later] {
            return Some(ascending[later]);
        }
    }
    None
}
