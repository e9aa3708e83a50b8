//! How a ring is made, and how seats come to it.
ghost use Rattle.std.specs.Prelude.{◌≡◌, ◌+◌, ◌<◌, ◌≤◌, ◌^◌, [], false, IfOk, OnOk};
ghost use Rattle.atomic_table.specs.Table.{Splits};
ghost use Rattle.dp_ring.specs.declared.view.Phase.TheVariants.{Fresh, Collecting};
ghost use Rattle.dp_ring.specs.Views.{fresh_seat};
ghost use Rattle.dp_ring.specs.Turns.{InTurn};
ghost use Rattle.dp_ring.specs.Plays.{as_consumer, as_producer, without_worker, as_worker};
ghost use Rattle.dp_ring.specs.Desks.{view, lent_slots};

use super::Desk;
use crate::item::RingItem;
use crate::plays::{Hires, Opens};
use crate::view::View;
use atomic_table::{Split, Table};
use dp_room::NoMemory;
use std::alloc::Global;
use std::sync::Arc;

impl<T: RingItem> Desk<T> {
    /// A new ring, and the first seat at it.
    pub fn open(alloc: Global, key: &T::Key, size: u64) -> Result<Desk<T>, NoMemory>
        requires { (0 < size) × (size < 2 ^ 32) }
        ensures { IfOk result (λ d. (d.size ≡ size) × (view d ≡ fresh_seat key.now) × (lent_slots d ≡ [])) }
    {
        let slots = (size + size) as usize;
        let words = Vec::from_elem(alloc, 0u64, slots + 1)?;
        let (table, seat) = Table::vacant(alloc, words.as_slice(), slots, key)?;
        Ok(Desk {
            table: Arc::new(alloc, table)?,
            seat,
            size,
        })
    }

    /// Another seat at the same ring, with what the split gives each of the two.
    fn split<M: Split<View<T::Key>>>(&mut self) -> Result<Desk<T>, NoMemory>
        requires { (k : T.Key) → Splits (InTurn T.is_put T.is_given k) self.old.seat.id (view self.old) (M.left (view self.old)) (M.right (view self.old)) }
        ensures ring { self.new.seat.table_id ≡ self.old.seat.table_id }
        ensures size { self.new.size ≡ self.old.size }
        ensures carried { lent_slots self.new ≡ lent_slots self.old }
        ensures left { OnOk result (view self.new ≡ M.left (view self.old)) }
        ensures right { IfOk result (λ d. (d.seat.table_id ≡ self.old.seat.table_id) × (d.size ≡ self.old.size) × (view d ≡ M.right (view self.old))
            × (lent_slots d ≡ [])) }
    {
        let table = Arc::try_clone(&self.table)?;
        let seat = table.shared.split_seat::<M>(&mut self.seat);
        Ok(Desk {
            table,
            seat,
            size: self.size,
        })
    }

    /// The first seat becomes the consumer's, and the producer's comes.
    pub fn with_producer(&mut self) -> Result<Desk<T>, NoMemory>
        requires { ((view self.old).phase ≡ Fresh) × ((view self.old).found ≡ false) }
        ensures ring { self.new.seat.table_id ≡ self.old.seat.table_id }
        ensures size { self.new.size ≡ self.old.size }
        ensures carried { lent_slots self.new ≡ lent_slots self.old }
        ensures consumer { OnOk result (view self.new ≡ as_consumer (view self.old)) }
        ensures producer { IfOk result (λ d. (d.seat.table_id ≡ self.old.seat.table_id) × (d.size ≡ self.old.size) × (view d ≡ as_producer (view self.old))
            × (lent_slots d ≡ [])) }
    {
        self.split::<Opens>()
    }

    /// A worker's seat comes. The consumer's has its tickets.
    pub fn with_worker(&mut self) -> Result<Desk<T>, NoMemory>
        requires { ((view self.old).phase ≡ Collecting) × ((view self.old).found ≡ false) × (2 ^ 32 ≤ (view self.old).spare) }
        ensures ring { self.new.seat.table_id ≡ self.old.seat.table_id }
        ensures size { self.new.size ≡ self.old.size }
        ensures carried { lent_slots self.new ≡ lent_slots self.old }
        ensures consumer { OnOk result (view self.new ≡ without_worker (view self.old)) }
        ensures worker { IfOk result (λ d. (d.seat.table_id ≡ self.old.seat.table_id) × (d.size ≡ self.old.size) × (view d ≡ as_worker (view self.old))
            × (lent_slots d ≡ [])) }
    {
        self.split::<Hires>()
    }
}
