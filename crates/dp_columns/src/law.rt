//! The law of columns, as the contract of a function that does nothing.
ghost use Rattle.dp_columns.specs.Telling.{HoldQueues};
ghost use Rattle.std.specs.Prelude.{ℕ, Bool};

/// Items that are put into columns, one behind the other, stand there in the queues of their sites.
pub fn columns_hold_the_queues()
    ensures { (first : ℕ) → (is_kept is_compared : ℕ → Bool) → HoldQueues first is_kept is_compared }
{}
