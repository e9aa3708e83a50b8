//! The net stores of a block that is running.
ghost use Rattle.std.specs.Prelude.{◌≡◌, ◌<◌, ◌++◌, ◌∷◌, [], map, length, List, OnOk, OnErr, MatchOption, ℕ};
ghost use Rattle.dp_net.specs.NetItems.{put};
ghost use Rattle.dp_columns.specs.Paired.{pair_store};
ghost use Rattle.dp_lean_turn.specs.Logged.{AreOfOtherCells, IsFirstAt};

use dp_columns::Pair;
use dp_room::{NoMemory, Row};
use std::alloc::Global;
use std::marker::Model;

/// The net stores of a block, in the order of the first ones into their cells. The cell of each leads to its place. What is
/// kept of a cell is looked at only where it leads to an entry of that cell, so that a block begins without clearing it.
#[derive(Drop)]
pub struct NetLog {
    entries: Row<Pair>,
    /// By cell: where its entry stands, if it has one. It is as long as needed.
    places: Row<u32>,
}

impl Model for NetLog {
    ghost use Rattle.std.specs.Prelude.{List};
    ghost use Rattle.dp_columns.specs.declared.Pair.{Pair as PairOf};
    ghost use Rattle.dp_lean_turn.specs.Leading.{LeadBack};

    ghost Value = { List PairOf };

    ghost view = { λ log. log.entries };

    ghost invariant = { λ log. LeadBack log.entries log.places };
}

/// There are places up to the cell's, and what was kept stays.
#[cold]
#[inline(never)]
fn lengthen(places: &mut Row<u32>, cell: u32) -> Result<(), NoMemory>
    ensures more { (more : List ℕ) × (places.new ≡ places.old ++ more) }
    ensures within { OnOk result (cell < length places.new) }
{
    for _ in places.len()..cell as usize + 1 {
        places.push(0)?;
    }
    Ok(())
}

/// There is a place for the cell, and what was kept stays.
#[inline(always)]
fn reach(places: &mut Row<u32>, cell: u32) -> Result<(), NoMemory>
    ensures more { (more : List ℕ) × (places.new ≡ places.old ++ more) }
    ensures within { OnOk result (cell < length places.new) }
{
    if (cell as usize) < places.len() {
        return Ok(());
    }
    lengthen(places, cell)
}

impl NetLog {
    /// A log without stores. It takes no memory until there is one.
    pub fn new(alloc: Global) -> NetLog
        ensures { result ≡ [] }
    {
        NetLog {
            entries: Row::new(alloc),
            places: Row::new(alloc),
        }
    }

    /// The stores.
    #[inline(always)]
    pub(crate) fn as_slice(&self) -> &[Pair]
        ensures { result.now ≡ self.now }
    {
        self.entries.as_slice()
    }

    /// There are none any more.
    #[inline(always)]
    pub(crate) fn clear(&mut self)
        ensures { self.new ≡ [] }
    {
        self.entries.clear();
    }

    /// Where the store into a cell stands, if there is one.
    #[inline(always)]
    fn place_of(&self, cell: u32) -> Option<usize>
        ensures { MatchOption result (AreOfOtherCells cell (length self.now) self.now) (λ place. IsFirstAt cell place self.now) }
    {
        match self.places.get(cell as usize) {
            Some(at) => {
                let place = *at as usize;
                match self.entries.get(place) {
                    Some(entry) => {
                        if entry.cell == cell {
                            Some(place)
                        } else {
                            None
                        }
                    }
                    None => None,
                }
            }
            None => None,
        }
    }

    /// The first store into a cell.
    #[inline(always)]
    fn add(&mut self, cell: u32, value: i64) -> Result<(), NoMemory>
        requires others { AreOfOtherCells cell (length self.old) self.old }
        ensures ok { OnOk result (self.new ≡ self.old ++ record { cell = cell; value = value } ∷ []) }
        ensures err { OnErr result (self.new ≡ self.old) }
    {
        reach(&mut self.places, cell)?;
        match u32::try_from(self.entries.len()) {
            Ok(place) => {
                self.entries.push(Pair { cell, value })?;
                self.places.set(cell as usize, place);
                Ok(())
            }
            Err(_) => Err(NoMemory),
        }
    }

    /// A store more: it takes the place of an earlier one into its cell, or stands behind the others.
    #[inline(always)]
    pub(crate) fn put(&mut self, cell: u32, value: i64) -> Result<(), NoMemory>
        ensures ok { OnOk result (map pair_store self.new ≡ put cell value (map pair_store self.old)) }
        ensures err { OnErr result (self.new ≡ self.old) }
    {
        match self.place_of(cell) {
            Some(place) => {
                self.entries.set(place, Pair { cell, value });
                Ok(())
            }
            None => self.add(cell, value),
        }
    }
}
