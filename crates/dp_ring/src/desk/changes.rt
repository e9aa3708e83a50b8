//! The four changes of a slot, each with the change of its word that gives the slot back.
ghost use Rattle.std.specs.Prelude.{◌≡◌, ◌+◌, [], ◌∷◌, true, false, Some, None};
ghost use Rattle.dp_ring.specs.declared.view.Phase.TheVariants.{Putting, Taking, Giving, Collecting};
ghost use Rattle.dp_ring.specs.Views.{face, view_after_put, after_take, after_give, after_collect};
ghost use Rattle.dp_ring.specs.Desks.{view, lent_slots, HasTurn, HasFree, HasFull};

use super::Desk;
use crate::item::RingItem;
use crate::plays::{Collects, GivesOn, PutsIn, TakesOut};

impl<T: RingItem> Desk<T> {
    /// Puts something into a slot that is lent to the seat, and takes out what was there.
    fn swap(&mut self, slot: usize, item: Option<T>) -> Option<T>
        requires { (y : _) × (lent_slots self.old ≡ (slot, y) ∷ []) }
        ensures item { lent_slots self.old ≡ (slot, result) ∷ [] }
        ensures carried { lent_slots self.new ≡ (slot, item) ∷ [] }
        ensures ring { self.new.seat.table_id ≡ self.old.seat.table_id }
        ensures same { (self.new.size ≡ self.old.size) × (view self.new ≡ view self.old) }
    {
        self.table.shared.exchange(&mut self.seat, slot, item)
    }

    /// Puts an item into the lent slot, which is free.
    fn fill(&mut self, slot: usize, item: T)
        requires { lent_slots self.old ≡ (slot, None) ∷ [] }
        ensures carried { lent_slots self.new ≡ (slot, Some item) ∷ [] }
        ensures ring { self.new.seat.table_id ≡ self.old.seat.table_id }
        ensures same { (self.new.size ≡ self.old.size) × (view self.new ≡ view self.old) }
    {
        match self.swap(slot, Some(item)) {
            None => {}
            Some(_) => unreachable!(),
        }
    }

    /// Takes the item out of the lent slot.
    fn empty(&mut self, slot: usize) -> T
        requires { HasFull slot self.old }
        ensures item { lent_slots self.old ≡ (slot, Some result) ∷ [] }
        ensures carried { lent_slots self.new ≡ (slot, None) ∷ [] }
        ensures ring { self.new.seat.table_id ≡ self.old.seat.table_id }
        ensures same { (self.new.size ≡ self.old.size) × (view self.new ≡ view self.old) }
    {
        self.swap(slot, None).unwrap()
    }

    /// The producer fills the slot.
    pub fn put_in(&mut self, slot: usize, number: u64, item: T)
        requires turn { HasTurn Putting slot self.old × HasFree slot self.old }
        requires number { number ≡ face self.old.size (view self.old).at true }
        requires item { (k : T.Key) → (view self.old).key ≡ Some k → T.is_put k (view self.old).at item }
        ensures ring { self.new.seat.table_id ≡ self.old.seat.table_id }
        ensures size { self.new.size ≡ self.old.size }
        ensures view { (k : T.Key) → (view self.old).key ≡ Some k → view self.new ≡ view_after_put (T.is_ending k item) (view self.old) }
        ensures carried { lent_slots self.new ≡ [] }
    {
        self.fill(slot, item);
        self.table
            .shared
            .store::<PutsIn<T>>(&mut self.seat, slot + 1, number);
    }

    /// The worker takes its ticket's item out.
    pub fn take_out(&mut self, slot: usize, number: u64) -> T
        requires turn { HasTurn Taking slot self.old × HasFull slot self.old }
        requires number { number ≡ face self.old.size ((view self.old).at + self.old.size) false }
        ensures ring { self.new.seat.table_id ≡ self.old.seat.table_id }
        ensures size { self.new.size ≡ self.old.size }
        ensures item { lent_slots self.old ≡ (slot, Some result) ∷ [] }
        ensures view { view self.new ≡ after_take (view self.old) }
        ensures carried { lent_slots self.new ≡ [] }
    {
        let item = self.empty(slot);
        self.table
            .shared
            .store::<TakesOut>(&mut self.seat, slot + 1, number);
        item
    }

    /// The worker fills its ticket's slot on the other side.
    pub fn give_on(&mut self, slot: usize, number: u64, item: T)
        requires turn { HasTurn Giving slot self.old × HasFree slot self.old }
        requires number { number ≡ face self.old.size (view self.old).at true }
        requires item { (k : T.Key) → (view self.old).key ≡ Some k → T.is_given k (view self.old).at item }
        ensures ring { self.new.seat.table_id ≡ self.old.seat.table_id }
        ensures size { self.new.size ≡ self.old.size }
        ensures view { (k : T.Key) → (view self.old).key ≡ Some k → view self.new ≡ after_give (T.is_ending k item) (view self.old) }
        ensures carried { lent_slots self.new ≡ [] }
    {
        self.fill(slot, item);
        self.table
            .shared
            .store::<GivesOn<T>>(&mut self.seat, slot + 1, number);
    }

    /// The consumer takes the item out.
    pub fn collect(&mut self, slot: usize, number: u64) -> T
        requires turn { HasTurn Collecting slot self.old × HasFull slot self.old }
        requires number { number ≡ face self.old.size ((view self.old).at + self.old.size) false }
        ensures ring { self.new.seat.table_id ≡ self.old.seat.table_id }
        ensures size { self.new.size ≡ self.old.size }
        ensures item { lent_slots self.old ≡ (slot, Some result) ∷ [] }
        ensures view { view self.new ≡ after_collect (view self.old) }
        ensures carried { lent_slots self.new ≡ [] }
    {
        let given = self.empty(slot);
        self.table
            .shared
            .store::<Collects>(&mut self.seat, slot + 1, number);
        given
    }
}
