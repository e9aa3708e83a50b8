//! Items lent for writing.
ghost use Rattle.std.specs.Prelude.{◌≡◌, ◌<◌, ◌↔◌, length, slice_get, Some, IsSome, IfSome};
ghost use Rattle.std.specs.Borrow.{sem};
ghost use Rattle.dp_room.specs.Lends.{lends_slice, lends_item};

use super::Row;

impl<T> Row<T> {
    /// The items, for writing. What is written through the borrow stands here once it ends.
    pub fn as_mut_slice(&mut self) -> &mut [T]
        ensures* writes_back { sem 𝓛 (lends_slice T.row self.entry result) }
        ensures value { result.now ≡ self.old }
    {
        self.items.as_mut_slice()
    }

    /// The item at a place, from 0, for writing. What is written through the borrow stands here once it ends.
    pub fn get_mut(&mut self, index: usize) -> Option<&mut T>
        ensures* writes_back { sem 𝓛 (lends_item T.row self.entry index result) }
        ensures within { IsSome result ↔ (index < length self.old) }
        ensures value { IfSome result (λ item. slice_get self.old index ≡ Some item.now) }
    {
        self.items.get_mut(index)
    }
}
