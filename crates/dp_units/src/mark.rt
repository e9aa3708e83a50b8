//! What a search knows of a node.

/// Where a node stands in the search.
#[derive(Clone, Copy)]
pub enum Mark {
    /// It wasn't met.
    Unseen,
    /// It is on the path, at this place.
    OnPath(usize),
    /// Its unit is complete, and has this number.
    Closed(usize),
}
