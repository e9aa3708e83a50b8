//! A message while it is made.
use dp_base::Row;
use std::alloc::Global;

/// The text of a message. Where memory is wanting it ends, so that it is a front of the message.
#[derive(Drop)]
pub struct Page {
    text: Row<u8>,
    full: bool,
}

impl Page {
    pub fn new(alloc: Global) -> Page {
        Page {
            text: Row::new(alloc),
            full: false,
        }
    }

    /// What was put so far.
    pub fn text(&self) -> &[u8] {
        self.text.as_slice()
    }

    pub fn put(&mut self, text: &str) {
        self.put_bytes(text.as_bytes());
    }

    pub fn put_bytes(&mut self, bytes: &[u8]) {
        if !self.full && self.text.extend_from_slice(bytes).is_err() {
            self.full = true;
        }
    }

    pub fn put_number(&mut self, number: u64) {
        let mut digits = itoa::Buffer::new();
        self.put(digits.format(number));
    }

    /// Puts the text between marks, as a token in a sentence.
    pub fn quote(&mut self, text: &[u8]) {
        self.put("`");
        self.put_bytes(text);
        self.put("`");
    }

    /// Puts a line of advice.
    pub fn hint(&mut self, text: &str) {
        self.put("      = hint: ");
        self.put(text);
        self.put("\n");
    }
}
