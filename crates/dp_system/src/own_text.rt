//! A text that the program holds itself.
ghost use Rattle.std.specs.Option.{option_map};
ghost use Rattle.dp_system.specs.OwnText.{beside};

use dp_edge::{Shelf, ShelfFail};
use std::alloc::Global;

/// A shelf that has one text of the program's own under a name, and else what another shelf has. Where there is no room for
/// that text, memory is wanting.
#[derive(Drop)]
pub struct OwnText<'a, S> {
    pub name: &'a str,
    pub text: &'a [u8],
    pub others: S,
}

impl<'a, S: Shelf> Shelf for OwnText<'a, S> {
    ghost contents = { λ shelf. option_map (beside shelf.name.now shelf.text.now) (S.contents shelf.others) };

    ghost failed_names = { λ shelf. S.failed_names shelf.others };

    ghost faults = { λ shelf. S.faults shelf.others };

    ghost taken = { λ shelf. S.taken shelf.others };

    fn read(&mut self, alloc: Global, name: &str, room: u32) -> Result<Vec<u8>, ShelfFail> {
        if name.as_bytes() != self.name.as_bytes() {
            return self.others.read(alloc, name, room);
        }
        if self.text.len() > room as usize {
            return Err(ShelfFail::NoMemory);
        }
        let bytes = Vec::from_slice(alloc, self.text)?;
        Ok(bytes)
    }
}
