//! Where a run stands in a region, and from where a load's value came.
ghost use Rattle.std.specs.Prelude.{◌≡◌, ◌<◌};
ghost use Rattle.dp_observe.specs.steps.Frames as definition;

use dp_base::SiteId;
use dp_meaning::Effect;

/// Who stored into a cell last: the site, and the number of steps with that store. Where nobody did, that is 0.
#[derive(Clone, Copy)]
pub(crate) struct Writer {
    pub site: SiteId,
    pub after: u64,
}

/// An evaluation, and the number of steps with it.
#[derive(Clone, Copy)]
pub(crate) struct Seen<'s> {
    pub site: SiteId,
    pub effect: Effect,
    pub cells: &'s [usize],
    pub after: u64,
}

/// How many steps were made before the region's start, before its last iteration, and with its last evaluation.
#[derive(Clone, Copy)]
pub(crate) struct Frame {
    /// The region's first site.
    pub first: SiteId,
    pub since: u64,
    pub begun: u64,
    pub last: u64,
}

impl Frame {
    /// After an evaluation of this site. The region starts where the evaluation before isn't one of its own.
    pub(crate) fn moved(self, site: SiteId, after: u64) -> Frame
        requires { 0 < after }
        ensures { result ≡ definition.frame_after self site.0 after }
    {
        let before = after - 1;
        let inside = self.last == before;
        let since = if inside { self.since } else { before };
        let begun = if inside { self.begun } else { before };
        Frame {
            first: self.first,
            since,
            begun: if self.first.0 == site.0 {
                before
            } else {
                begun
            },
            last: after,
        }
    }

    /// The column of the store that a load reads, where it is one of the region's since its start. A body local has no value
    /// of an earlier iteration.
    pub(crate) fn column(self, writer: Writer, local: bool) -> Option<usize>
        ensures { result ≡ definition.column_of self writer local }
    {
        if writer.after <= self.since {
            return None;
        }
        let carried = writer.after <= self.begun;
        if carried && local {
            return None;
        }
        let place = writer.site.0.saturating_sub(self.first.0) as usize;
        Some(2 * place + usize::from(carried))
    }
}
