//! What goes from unit to unit.
ghost use Rattle.std.specs.Prelude.{ℕ, Bool};
ghost use Rattle.dp_relay.specs.UnitsKey.{UnitsKey};

/// An item that a unit takes or sends.
pub trait Item: Drop {
    /// It is what the stage of this number sends at this place of the epoch, from 0.
    ghost is_sent: { UnitsKey → ℕ → ℕ → Self → Type 0 };

    /// No item of the epoch follows it.
    ghost is_last: { UnitsKey → Self → Bool };
}
