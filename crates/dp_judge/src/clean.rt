//! What a verdict carries of a clean iteration.
ghost use Rattle.std.specs.Prelude.{◌≡◌};

use dp_base::StoreOf;
use std::marker::Model;

/// A clean iteration: stores that lead to the memory behind it, its prints in the source's order, its number of steps, and
/// whether it is the closing one. Only a judgement makes one, and it isn't copied; it lends what the batch of verdicts holds.
#[derive(Drop)]
pub struct Clean<'v> {
    stores: &'v [StoreOf],
    prints: &'v [i64],
    steps: u64,
    closing: bool,
}

impl<'v> Model for Clean<'v> {
    ghost use Rattle.dp_semantics.specs.EpochVerdicts.{Carried};

    ghost Value = { Carried };

    ghost view = { λ c. record { stores = c.stores.now; prints = c.prints.now; steps = c.steps; closing = c.closing } };
}

impl<'v> Clean<'v> {
    /// What was agreed on.
    pub(crate) fn agree(
        stores: &'v [StoreOf],
        prints: &'v [i64],
        steps: u64,
        closing: bool,
    ) -> Clean<'v>
        ensures { result ≡ record { stores = stores.now; prints = prints.now; steps = steps; closing = closing } }
    {
        Clean {
            stores,
            prints,
            steps,
            closing,
        }
    }

    /// Stores that lead to the memory behind the iteration.
    pub fn stores(&self) -> &'v [StoreOf]
        ensures { result.now ≡ self.now.stores }
    {
        self.stores
    }

    /// The printed numbers, in the source's order.
    pub fn prints(&self) -> &'v [i64]
        ensures { result.now ≡ self.now.prints }
    {
        self.prints
    }

    /// The number of steps.
    pub fn steps(&self) -> u64
        ensures { result ≡ self.now.steps }
    {
        self.steps
    }

    /// Whether the region was left.
    pub fn closing(&self) -> bool
        ensures { result ≡ self.now.closing }
    {
        self.closing
    }
}
