//! What the units of an epoch run on.
ghost use Rattle.std.specs.Prelude.{◌≡◌};

use crate::keys::LaneKey;
use crate::size::CrewSize;
use dp_base::Cells;
use dp_lean_region::Line;

/// The line of a region, the size of its crew, and the epoch with the stage whose units are made next.
pub struct Setting<'u> {
    pub(crate) line: Line<'u>,
    pub(crate) size: CrewSize,
    pub(crate) key: LaneKey<'u>,
}

// By hand, so that what makes the units doesn't prove again how all of it is dropped.
impl<'u> Drop for Setting<'u> {
    fn drop(self) {
        let Setting {
            line: _,
            size: _,
            key: _,
        } = self;
    }
}

impl<'u> Setting<'u> {
    /// The memory in which the epoch begins.
    pub(crate) fn into_base(self) -> Cells
        ensures { result ≡ self.entry.key.epoch.base }
    {
        let Setting {
            line: _,
            size: _,
            key,
        } = self;
        key.into_base()
    }
}
