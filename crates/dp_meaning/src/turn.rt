//! What one step gives.
use crate::sight::Effect;
use dp_base::{Fault, SiteId};

#[derive(Clone, Copy)]
pub(crate) enum Turn {
    /// The site was evaluated, with this effect, and whether that has left a region.
    Made {
        left: bool,
        site: SiteId,
        effect: Effect,
    },
    /// The evaluation faults. Nothing has changed.
    Fault(Fault),
}
