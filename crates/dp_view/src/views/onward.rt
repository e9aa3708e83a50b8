//! Where the next iteration begins.
ghost use Rattle.std.specs.Prelude.{◌≡◌};
ghost use Rattle.dp_view.specs.Viewed as definition;

use super::Views;
use crate::memories::{refresh, reset};
use crate::shares::{next_all, refresh_all};

impl<'p> Views<'p> {
    /// The next iteration begins, in the same epoch.
    pub fn go_on(&mut self)
        ensures { self.new ≡ definition.next_in_epoch self.old }
    {
        let locals = self.locals.as_slice();
        next_all(
            self.views.as_mut_slice(),
            self.plan,
            locals,
            self.stored.cells(),
        );
        reset(&mut self.counts);
        refresh(
            self.source.as_slice(),
            locals,
            self.stored.cells(),
            &mut self.before,
        );
        self.stored.clear();
        self.found = None;
    }

    /// The next iteration begins, and a new epoch with it.
    pub fn begin_epoch(&mut self)
        ensures { self.new ≡ definition.anew self.old }
    {
        let locals = self.locals.as_slice();
        refresh_all(
            self.views.as_mut_slice(),
            locals,
            self.since.cells(),
            self.source.as_slice(),
        );
        reset(&mut self.counts);
        refresh(
            self.source.as_slice(),
            locals,
            self.stored.cells(),
            &mut self.before,
        );
        self.stored.clear();
        self.since.clear();
        self.found = None;
    }
}
