//! Who is told of the loads of an evaluation.
ghost use Rattle.std.specs.Prelude.{ℕ, ℤ};

/// What is told the loads of an evaluation, one after the other, while it is made.
pub trait Watch {
    /// What it becomes when it is told of a cell, and what that holds.
    ghost told: { Self → ℕ → ℤ → Self → Type 0 };

    fn load(&mut self, cell: u32, value: i64)
        ensures { told self.old cell value self.new };
}

/// Nothing is told.
#[derive(Drop)]
pub struct Unwatched;

impl Watch for Unwatched {
    ghost told = { λ _ _ _ _. Unit {0} };

    #[inline(always)]
    fn load(&mut self, _cell: u32, _value: i64) {}
}
