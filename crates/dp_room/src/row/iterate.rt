//! A row as what a `for` goes through.
ghost use Rattle.std.specs.Prelude.{◌≡◌, ◌^◌, ◌<◌, length};
ghost use Rattle.std.specs.Iterator.Runs.{EveryRun, ItemsAre, ItemsMapTo};
ghost use Rattle.std.specs.Slice.Iter.{iter_rest, iter_steps};
ghost use Rattle.std.specs.Vec.Iter.{into_iter_steps, into_iter_items, into_iter_len};
ghost use Rattle.std.specs.declared.alloc.Global.{Global};

use super::Row;
use std::slice::Iter;
use std::vec::IntoIter;

/// Gives the items in order.
impl<T: Drop> IntoIterator for Row<T> {
    type Item = T;

    type IntoIter = IntoIter<T>;

    ghost into_iter_gives = { λ row it. (into_iter_items it ≡ row) × (into_iter_len it ≡ length row)
        × (into_iter_len it < 2 ^ 64)
        × EveryRun (into_iter_steps {X = T} {Z = Global}) (λ run. ItemsAre run (into_iter_items run.from)) };

    fn into_iter(self) -> IntoIter<T> {
        let Row { items } = self;
        items.into_iter()
    }
}

/// Lends the items in order.
impl<'a, T> IntoIterator for &'a Row<T> {
    type Item = &'a T;

    type IntoIter = Iter<'a, T>;

    ghost into_iter_gives = { λ row it. (iter_rest it ≡ row.now) × (length (iter_rest it) < 2 ^ 64)
        × EveryRun (iter_steps {A = T}) (λ run. ItemsMapTo run (λ item. item.now) (iter_rest run.from)) };

    fn into_iter(self) -> Iter<'a, T> {
        self.items.as_slice().iter()
    }
}
