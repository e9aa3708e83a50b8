//! A block of the stage begins, and is told.
ghost use Rattle.std.specs.Prelude.{◌≡◌, true, [], OnOk};
ghost use Rattle.dp_lean_turn.specs.Notes.{kind_at};
ghost use Rattle.dp_lean_turn.specs.Told.{Grown};
ghost use Rattle.dp_lean_turn.specs.Adding.{IsBlockPut};

use crate::Teller;
use dp_columns::ColumnKind;
use dp_room::NoMemory;

impl Teller {
    /// An own block begins.
    #[inline(always)]
    pub(crate) fn begin_block(&mut self, place: usize)
        ensures { self.new ≡ record self.old { log = record { running = true; place = place; stores = [] } } }
    {
        self.log.running = true;
        self.log.place = place;
        self.log.stores.clear();
    }

    /// The own block that is running is told.
    #[inline(always)]
    pub(crate) fn finish_block(&mut self, kind: ColumnKind) -> Result<(), NoMemory>
        requires kind { kind ≡ kind_at self.old.own.kinds self.old.log.place }
        ensures ok { OnOk result (IsBlockPut kind self.old self.new) }
        ensures grown { Grown self.old.own self.new.own }
    {
        match kind {
            ColumnKind::Nothing => {}
            ColumnKind::Block => {
                self.own
                    .put_block(self.log.place, self.log.stores.as_slice())?
            }
            _ => return Err(NoMemory),
        }
        self.log.running = false;
        Ok(())
    }
}
