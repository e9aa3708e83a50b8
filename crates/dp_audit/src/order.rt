//! Numbers in ascending order.
ghost use Rattle.std.specs.Prelude.{◌≡◌, IsPermutation};
ghost use Rattle.std.specs.List.Sorted.{IsNonDecreasing};
ghost use Rattle.dp_plan.specs.Written as written;

use dp_base::Row;

/// The numbers in ascending order.
pub(crate) fn in_order(numbers: Row<u32>) -> Row<u32>
    ensures permutation { IsPermutation numbers result }
    ensures ascending { IsNonDecreasing result }
{
    let mut items = numbers.into_vec();
    items.sort_unstable();
    Row::from_vec(items)
}

/// Whether the number is among these.
pub(crate) fn has(ascending: &[u32], number: u32) -> bool
    requires { IsNonDecreasing ascending.now }
    ensures { result ≡ written.has number ascending.now }
{
    match ascending.binary_search(&number) {
        Ok(_) => true,
        Err(_) => false,
    }
}
