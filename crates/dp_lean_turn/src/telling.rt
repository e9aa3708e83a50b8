//! What a stage tells: the events of its own sites, and the net stores of its blocks.
ghost use Rattle.std.specs.Prelude.{◌≡◌, ◌<◌, true, false, map, length, get_or, slice_get, None, OnOk, OnErr, if◌then◌else◌};
ghost use Rattle.dp_lean.specs.Queues.{Did};
ghost use Rattle.dp_tree.specs.Step as effect;
ghost use Rattle.dp_tree.specs.Step.{Event};
ghost use Rattle.dp_semantics.specs.Clean.{as_assumed};
ghost use Rattle.dp_net.specs.NetItems.{Marks, is_store};
ghost use Rattle.dp_columns.specs.Columned.{Columned, KeepsElements, with_told};
ghost use Rattle.dp_lean_code.specs.LeanHeld.{Held};
ghost use Rattle.dp_lean_turn.specs.Notes.{kind_at};
ghost use Rattle.dp_lean_turn.specs.Told.{done_put, Grown};
ghost use Rattle.dp_lean_turn.specs.Adding.{FitsNote, IsEventPut, CountsWords, LogsStore, IsOwnEvent, Adds};

use crate::{Answer, Frame, Note, Teller};
use dp_columns::{ColumnKind, Columns};
use dp_room::NoMemory;

/// A cell and a value are put. It is out of line, so that what is frequent stays short.
#[inline(never)]
fn put_element(own: &mut Columns, place: usize, cell: u32, value: i64) -> Result<(), NoMemory>
    requires { KeepsElements (slice_get own.old.kinds place) }
    ensures ok { OnOk result (own.new ≡ with_told place (Did cell value) own.old) }
    ensures err { OnErr result (own.new ≡ own.old) }
{
    own.put_element(place, cell, value)
}

/// What an own site did is put into its column, by what that keeps.
#[inline(always)]
fn put_done(
    own: &mut Columns,
    kind: ColumnKind,
    place: usize,
    cell: u32,
    value: i64,
) -> Result<(), NoMemory>
    requires kind { kind ≡ kind_at own.old.kinds place }
    ensures ok { OnOk result (own.new ≡ done_put kind place cell value own.old) }
    ensures grown { Grown own.old own.new }
{
    match kind {
        ColumnKind::Nothing => Ok(()),
        ColumnKind::Value { cell: kept } => {
            if kept == cell {
                own.put_value(place, value)
            } else {
                Err(NoMemory)
            }
        }
        ColumnKind::Element => put_element(own, place, cell, value),
        ColumnKind::Block => Err(NoMemory),
    }
}

/// The stage's blocks don't tell their stores into the cell.
#[inline(always)]
pub(crate) fn is_hidden(hidden: &[bool], cell: u32) -> bool
    ensures { result ≡ get_or hidden.now cell false }
{
    match hidden.get(cell as usize) {
        Some(hides) => *hides,
        None => false,
    }
}

impl Teller {
    /// How many words the loads are that are told.
    #[inline(always)]
    fn load_words(&self, note: &Note) -> usize
        ensures { result ≡ (if note.now.checked then length self.now.loads.entries else 0) }
    {
        if note.checked {
            self.loads.entries.len()
        } else {
            0
        }
    }

    /// The event of an own site is put into its columns.
    #[inline(always)]
    fn put(&mut self, note: &Note, cell: u32, value: i64) -> Result<(), NoMemory>
        requires fits { FitsNote self.old note.now }
        ensures ok { OnOk result (IsEventPut note.now cell value self.old self.new) }
        ensures grown { Grown self.old.own self.new.own }
    {
        put_done(&mut self.own, note.kind, note.place as usize, cell, value)?;
        if note.checked {
            self.own
                .put_loads(note.place as usize, self.loads.entries.as_slice())?;
        }
        Ok(())
    }

    /// So many words more, and a step.
    #[inline(always)]
    fn count(&mut self, limit: u32, words: usize) -> Answer
        ensures counts { CountsWords limit words self.old self.new result }
        ensures own { self.new.own ≡ self.old.own }
    {
        let free = limit.saturating_sub(self.used) as usize;
        if words >= free {
            return Answer::Broken;
        }
        match self.steps.checked_add(1) {
            Some(steps) => {
                self.used = self.used + words as u32 + 1;
                self.steps = steps;
                Answer::Goes
            }
            None => Answer::NoMemory,
        }
    }

    /// The event of an own site outside of blocks.
    #[inline(always)]
    fn tell<'f>(&mut self, frame: &Frame<'f>, note: &Note, cell: u32, value: i64) -> Answer
        requires fits { FitsNote self.old note.now }
        ensures adds { (m : Marks) (before : Columned) (h : Held) (event : Event) → IsOwnEvent frame.now m before self.old note.now h cell value event →
            h.block ≡ None → as_assumed frame.now.program.now frame.now.plan.now event.site event.effect ≡ true →
            Adds frame.now m before h event self.new result }
        ensures grown { Grown self.old.own self.new.own }
    {
        if self.loads.wanting {
            return Answer::NoMemory;
        }
        match self.count(frame.plan.words, self.load_words(note)) {
            Answer::Goes => match self.put(note, cell, value) {
                Ok(()) => Answer::Goes,
                Err(NoMemory) => Answer::NoMemory,
            },
            other => other,
        }
    }

    /// A store of the block that is running.
    #[inline(always)]
    pub(crate) fn log_store<'f>(&mut self, frame: &Frame<'f>, cell: u32, value: i64) -> Answer
        ensures { LogsStore frame.now cell value self.old self.new result }
    {
        if is_hidden(frame.hidden, cell) {
            return Answer::Goes;
        }
        match self.log.stores.put(cell, value) {
            Ok(()) => Answer::Goes,
            Err(NoMemory) => Answer::NoMemory,
        }
    }

    /// A store of an own site.
    #[inline(always)]
    pub(crate) fn stored<'f>(
        &mut self,
        frame: &Frame<'f>,
        note: &Note,
        cell: u32,
        value: i64,
    ) -> Answer
        requires fits { FitsNote self.old note.now }
        ensures adds { (m : Marks) (before : Columned) (h : Held) (event : Event) → IsOwnEvent frame.now m before self.old note.now h cell value event →
            event.effect ≡ effect.Stored cell value → Adds frame.now m before h event self.new result }
        ensures grown { Grown self.old.own self.new.own }
    {
        if !self.log.running {
            return self.tell(frame, note, cell, value);
        }
        match self.count(frame.plan.words, 0) {
            Answer::Goes => self.log_store(frame, cell, value),
            other => other,
        }
    }

    /// A value of an own site that is no store: a print, a condition or an early exit.
    #[inline(always)]
    pub(crate) fn decided<'f>(
        &mut self,
        frame: &Frame<'f>,
        note: &Note,
        assumed: bool,
        value: i64,
    ) -> Answer
        requires fits { FitsNote self.old note.now }
        ensures adds { (m : Marks) (before : Columned) (h : Held) (event : Event) → IsOwnEvent frame.now m before self.old note.now h 0 value event →
            is_store event.effect ≡ false → assumed ≡ as_assumed frame.now.program.now frame.now.plan.now event.site event.effect →
            Adds frame.now m before h event self.new result }
        ensures grown { Grown self.old.own self.new.own }
    {
        if self.log.running {
            return self.count(frame.plan.words, 0);
        }
        if !assumed {
            return Answer::Broken;
        }
        self.tell(frame, note, 0, value)
    }
}
