//! What a poll answers.

/// Why a poll moved nothing.
#[derive(Clone, Copy, PartialEq, Eq)]
pub enum IdleWhy {
    /// The lane that it takes from was empty.
    Empty,
    /// The lane that it sends on was full.
    Full,
    /// Its turn at a ring hasn't come: the awaited word had this number.
    Busy { word: u64 },
}

/// What a poll did.
#[derive(Clone, Copy, PartialEq, Eq)]
pub enum Polled {
    /// An item was sent.
    Moved,
    Idle(IdleWhy),
    Ended,
}

/// Why a unit has ended.
#[derive(Clone, Copy)]
pub enum EndedWhy {
    /// The item that it sent last was an ending one.
    Last,
    /// It saw the stop flag set.
    Stopped,
}
