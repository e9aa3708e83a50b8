//! Small tests of values.
ghost use Rattle.std.specs.Prelude.{◌≡◌, ◌||◌, ◌&&◌, ◌≤◌, ◌<◌, ◌-◌, true, false, if◌then◌else◌};
ghost use Rattle.dp_base.specs.Arithmetic.{is_zero};
ghost use Rattle.dp_code.specs.FlatRun as run;

use crate::Note;

/// The first place at 0, and else the second.
#[inline(always)]
#[tactic(auto, unfolding(dp_base::specs::Arithmetic::is_zero))]
pub(crate) fn by_zero(value: i64, zero: u32, next: usize) -> usize
    ensures { result ≡ run.by_zero value zero next }
{
    if value == 0 { zero as usize } else { next }
}

/// The turn closes where a 0 comes to the region's condition.
#[inline(always)]
#[tactic(auto, unfolding(dp_base::specs::Arithmetic::is_zero))]
pub(crate) fn close(closing: &mut bool, note: &Note, value: i64)
    ensures { closing.new ≡ (closing.old || note.now.closes && is_zero value) }
{
    if note.closes {
        *closing = *closing || value == 0;
    }
}

/// The cell is one of so many from the first on.
#[inline(always)]
pub(crate) fn is_within(first: u32, count: u32, cell: u32) -> bool
    ensures yes { result ≡ true → (first ≤ cell) × (cell - first < count) }
    ensures no { result ≡ false → (first ≤ cell) × (cell - first < count) → ⊥ }
{
    first <= cell && cell - first < count
}

impl Note {
    /// It goes as assumed that the site's value is this.
    #[inline(always)]
    #[tactic(auto, unfolding(dp_base::specs::Arithmetic::is_zero))]
    pub(crate) fn goes_as_assumed(&self, value: i64) -> bool
        ensures { result ≡ (if is_zero value then self.now.when_zero else self.now.when_other) }
    {
        if value == 0 {
            self.when_zero
        } else {
            self.when_other
        }
    }
}
