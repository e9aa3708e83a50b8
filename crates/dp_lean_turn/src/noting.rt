//! The loads of a site, while it is evaluated.
ghost use Rattle.std.specs.Prelude.{◌≡◌, [], true};
ghost use Rattle.dp_lean_turn.specs.Told.{notes_load};

use crate::Loads;
use dp_columns::Pair;
use dp_engine::Watch;

impl Loads {
    /// A site is evaluated, whose loads are noted or not.
    #[inline(always)]
    pub(crate) fn begin(&mut self, checked: bool)
        ensures checked { self.new.checked ≡ checked }
        ensures none { checked ≡ true → self.new.entries ≡ [] }
        ensures wanting { self.new.wanting ≡ self.old.wanting }
    {
        self.checked = checked;
        if checked {
            self.entries.clear();
        }
    }

    /// One more.
    #[inline(always)]
    fn note(&mut self, cell: u32, value: i64)
        ensures { notes_load self.old cell value self.new }
    {
        match self.entries.push(Pair { cell, value }) {
            Ok(()) => {}
            Err(_) => self.wanting = true,
        }
    }
}

impl Watch for Loads {
    ghost told = { λ old cell value new. notes_load old cell value new };

    #[inline(always)]
    fn load(&mut self, cell: u32, value: i64) {
        if self.checked {
            self.note(cell, value)
        }
    }
}
