//! The order of flows.

use crate::Flow;

impl Flow {
    ghost use Rattle.std.specs.Prelude.{◌≡◌};
    ghost use Rattle.dp_profile.specs.ProfileFits as fits;

    /// Flows are ordered by `from`, then by `to`, and then those within an iteration before the carried ones.
    pub fn is_before(self, other: Flow) -> bool
        ensures { result ≡ fits.is_before self other }
    {
        self.from.0 < other.from.0
            || (self.from.0 == other.from.0
                && (self.to.0 < other.to.0
                    || (self.to.0 == other.to.0 && (!self.carried && other.carried))))
    }
}
