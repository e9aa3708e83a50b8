//! What a ring's items are.
ghost use Rattle.std.specs.Prelude.{ℕ, Bool};

/// An item of a ring. A key stands for a list of items that are put and one of items that are given.
pub trait RingItem: Send + Drop {
    /// What one ring is for. Contracts see it as plain data.
    type Key;

    /// It is the item at this place, from 0, of the list of items that are put.
    ghost is_put: { Self.Key → ℕ → Self → Type 0 };

    /// It is the item at this place, from 0, of the list of items that are given.
    ghost is_given: { Self.Key → ℕ → Self → Type 0 };

    /// No item follows it in the lists of the key.
    ghost is_ending: { Self.Key → Self → Bool };
}
