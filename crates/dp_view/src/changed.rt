//! The cells that changed, in ascending order.
ghost use Rattle.std.specs.Prelude.{◌≡◌, ℕ, ◌<◌, true, filter, length, OnOk};
ghost use Rattle.std.specs.List.Sorted.{IsNonDecreasing};
ghost use Rattle.dp_tree.specs.Numbering.{numbers_from};
ghost use Rattle.dp_plan.specs.Written.{has};
ghost use Rattle.dp_view.specs.Changed as definition;

use crate::memories::value_at;
use dp_base::{NoMemory, Row};

fn differs(before: &[i64], after: &[i64], cell: usize) -> bool
    ensures { result ≡ definition.differs before.now after.now cell }
{
    value_at(before, cell) != value_at(after, cell)
}

/// The cells that read otherwise than before, in ascending order, take the place of what `out` has: they have to be among the
/// given ones.
pub(crate) fn put_changes(
    cells: &[usize],
    before: &[i64],
    after: &[i64],
    out: &mut Row<usize>,
) -> Result<(), NoMemory>
    requires { IsNonDecreasing cells.now }
    ensures { ((c : ℕ) → c < length after.now → definition.differs before.now after.now c ≡ true → has c cells.now ≡ true) →
        OnOk result (out.new ≡ filter (definition.differs before.now after.now) (numbers_from 0 (length after.now))) }
{
    out.clear();
    let mut next = 0;
    for cell in cells {
        if next <= *cell && *cell < after.len() {
            if differs(before, after, *cell) {
                out.push(*cell)?;
            }
            next = *cell + 1;
        }
    }
    Ok(())
}
