//! A shelf in memory.
ghost use Rattle.std.specs.Prelude.{◌≡◌};
ghost use Rattle.std.specs.Option.{option_copied};
ghost use Rattle.dp_edge.specs.MemShelf.{content_of};

use crate::shelf::{Shelf, ShelfFail};
use dp_base::{NoMemory, Row};
use std::alloc::Global;
use std::marker::Model;

/// One text of a shelf in memory.
#[derive(Drop)]
pub struct Held {
    /// The name that it is read under.
    pub name: Row<u8>,
    /// Its bytes.
    pub content: Row<u8>,
}

/// A shelf in memory, some of whose calls fail. It tells what it holds and which reads failed.
#[derive(Drop)]
pub struct MemShelf {
    alloc: Global,
    held: Row<Held>,
    failing: Row<u64>,
    calls: u64,
    failed_names: Row<Row<u8>>,
    faults: u64,
    taken: u64,
}

impl Model for MemShelf {
    ghost use Rattle.dp_edge.specs.MemShelf.{Stock};

    ghost Value = { Stock };

    ghost view = { λ shelf. record {
      held = shelf.held;
      failing = shelf.failing;
      calls = shelf.calls;
      failed_names = shelf.failed_names;
      faults = shelf.faults;
      taken = shelf.taken;
    } };
}

impl MemShelf {
    ghost use Rattle.std.specs.Prelude.{◌≡◌, [], ◌∷◌, ◌++◌, ◌+◌, ◌-◌, ◌^◌, ◌<◌, OnOk, OnErr};
    ghost use Rattle.dp_edge.specs.MemShelf.{Stock};

    /// A shelf with these texts, whose calls with these numbers, from 1, fail. Of two texts with one name the first counts.
    pub fn new(alloc: Global, held: Row<Held>, failing: Row<u64>) -> MemShelf
        ensures { result ≡ record { held = held; failing = failing; calls = 0; failed_names = []; faults = 0; taken = 0 } }
    {
        MemShelf {
            alloc,
            held,
            failing,
            calls: 0,
            failed_names: Row::new(alloc),
            faults: 0,
            taken: 0,
        }
    }

    // Notes a failed read.
    fn note_fault(&mut self, name: &str) -> Result<(), NoMemory>
        requires { self.old.faults < 2 ^ 64 - 1 }
        ensures ok { OnOk result (self.new ≡ record self.old { failed_names = self.old.failed_names ++ name.now ∷ []; faults = self.old.faults + 1 }) }
        ensures err { OnErr result (self.new ≡ self.old) }
    {
        let name = Row::from_slice(self.alloc, name.as_bytes())?;
        self.failed_names.push(name)?;
        self.faults += 1;
        Ok(())
    }
}

// The content of the first text with this name.
fn find<'a>(held: &'a [Held], name: &[u8]) -> Option<&'a [u8]>
    ensures { option_copied result ≡ content_of held.now name.now }
{
    held.iter()
        .find(|text| text.name.as_slice() == name)
        .map(|text| text.content.as_slice())
}

impl Shelf for MemShelf {
    ghost use Rattle.std.specs.Prelude.{◌≡◌, ◌+◌, ◌-◌, ◌^◌, ◌<◌, ◌≤◌, length, IfOk, IfSome, Some};
    ghost use Rattle.std.specs.Option.{option_map};
    ghost use Rattle.dp_edge.specs.Shelf.{FaultsAfterRead, names_after_read, OnTooLong, TookBytes, ReadsContent};
    ghost use Rattle.dp_edge.specs.MemShelf.{content_of, AnswersAsWanted, next_answer, after_read};

    ghost contents = { λ shelf. Some (content_of shelf.held) };

    ghost failed_names = { λ shelf. Some shelf.failed_names };

    ghost faults = { λ shelf. shelf.faults };

    ghost taken = { λ shelf. shelf.taken };

    fn read(&mut self, alloc: Global, name: &str, room: u32) -> Result<Vec<u8>, ShelfFail>
        requires { self.old.faults < 2 ^ 64 - 1 }
        ensures answer { AnswersAsWanted result (next_answer self.old name.now room) }
        ensures taken { self.old.taken ≤ self.new.taken }
        ensures after { self.new ≡ after_read result self.old name.now room }
    {
        self.calls = self.calls.saturating_add(1);
        if self.failing.as_slice().contains(&self.calls) {
            self.note_fault(name)?;
            return Err(ShelfFail::Failed);
        }
        let Some(content) = find(self.held.as_slice(), name.as_bytes()) else {
            self.note_fault(name)?;
            return Err(ShelfFail::Failed);
        };
        if content.len() > room as usize {
            self.taken = self.taken.saturating_add(room as u64 + 1);
            return Err(ShelfFail::TooLong);
        }
        let bytes = Vec::from_slice(alloc, content)?;
        self.taken = self.taken.saturating_add(bytes.len() as u64);
        Ok(bytes)
    }
}
