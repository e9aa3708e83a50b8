//! A line of a terminal that is written over, and taken away.
use std::cell::Cell;

/// As long as the longest line that is shown.
const BLANKS: &[u8; 79] =
    b"                                                                               ";

/// What stands on the line for the time being. Whoever writes to the terminal takes it away before.
#[derive(Drop)]
pub struct Shown<'p, P: Print> {
    out: &'p P,
    len: Cell<usize>,
}

impl<'p, P: Print> Shown<'p, P> {
    /// Nothing yet.
    pub fn new(out: &'p P) -> Shown<'p, P> {
        Shown {
            out,
            len: Cell::new(0),
        }
    }

    /// Puts a text in the place of what stands there. Where it can't be written nothing does.
    pub fn show(&self, text: &[u8]) {
        self.wipe();
        let fits = text.get(..BLANKS.len()).unwrap_or(text);
        if self.out.write_all(fits).is_ok() {
            self.len.set(fits.len());
        }
    }

    /// Takes away what stands there.
    pub fn wipe(&self) {
        let len = self.len.get();
        if len > 0 {
            self.len.set(0);
            let blanks = BLANKS.get(..len).unwrap_or(&[]);
            let _ = self.out.write_all(b"\r");
            let _ = self.out.write_all(blanks);
            let _ = self.out.write_all(b"\r");
        }
    }
}
