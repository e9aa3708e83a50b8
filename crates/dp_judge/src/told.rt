//! What is decided of a batch, verdict by verdict.
ghost use Rattle.std.specs.Prelude.{◌≡◌, ◌++◌, [], length, slice_get, true, ◌≤◌, Some, OnErr, OnOk};
ghost use Rattle.std.specs.List.{list_all};
ghost use Rattle.dp_lean_judge.specs.Collecting.{undone};
ghost use Rattle.dp_judge.specs.Told.{goes_on_behind};
ghost use Rattle.dp_judge.specs.declared.verdict.Verdict.TheVariants as verdict;
ghost use Rattle.dp_judge.specs.Decided.{GivesNext, carried_by, cleans, end_verdicts, last_given, left_to_give};
ghost use Rattle.dp_judge.specs.steps.Adding.{AddedTo, GrownTo, IsUngiven, begun_of};

use crate::clean::Clean;
use crate::parts::{is_over, left_from, none_closes, part_of, place_behind};
use crate::verdict::Verdict;
use dp_base::Cells;
use dp_lean_judge::Collected;
use dp_room::{NoMemory, Row};
use std::alloc::Global;

/// How many stores and prints a clean iteration has, how many steps, and whether it leaves the region.
#[derive(Clone, Copy)]
pub(crate) struct Part {
    pub(crate) stores: usize,
    pub(crate) prints: usize,
    pub(crate) steps: u64,
    pub(crate) closing: bool,
}

/// Where the stores and the prints of an iteration begin.
#[derive(Clone, Copy)]
pub(crate) struct Begun {
    pub(crate) stores: usize,
    pub(crate) prints: usize,
}

/// What stands behind the clean iterations.
#[derive(Clone, Copy)]
pub(crate) enum ToldEnd {
    Over,
    /// One that is to be executed again.
    Unclean,
    /// Memory was wanting.
    NoMemory,
}

/// The verdict that was given last.
#[derive(Clone, Copy)]
pub(crate) enum Last {
    /// On the clean iteration of this part, whose stores and prints begin there.
    Clean {
        part: Part,
        stores: usize,
        prints: usize,
    },
    Unclean,
    NoMemory,
}

/// The verdicts on a batch: the stores and prints of all clean iterations, one behind the other, and how many are each one's.
pub struct ToldBatch {
    /// Those of an iteration that isn't clean may stand behind.
    pub(crate) collected: Collected,
    parts: Row<Part>,
    end: ToldEnd,
    /// How many clean iterations were given.
    given: usize,
    /// Where the stores and the prints of the next one begin.
    stores_given: usize,
    prints_given: usize,
    last: Last,
}

// By hand, so that a crate above doesn't prove again how its rows are dropped.
impl Drop for ToldBatch {
    fn drop(self) {
        let ToldBatch {
            collected: _,
            parts: _,
            end: _,
            given: _,
            stores_given: _,
            prints_given: _,
            last: _,
        } = self;
    }
}

impl ToldBatch {
    /// No verdict. It takes no memory until there is one.
    pub fn new(alloc: Global) -> ToldBatch
        ensures left { left_to_give result ≡ [] }
        ensures given { last_given result ≡ verdict.NoMemory }
    {
        ToldBatch {
            collected: Collected::new(alloc),
            parts: Row::new(alloc),
            end: ToldEnd::Over,
            given: 0,
            stores_given: 0,
            prints_given: 0,
            last: Last::NoMemory,
        }
    }

    /// No verdict again. The room stays.
    pub(crate) fn clear(&mut self)
        ensures cleans { cleans self.new ≡ [] }
        ensures left { left_to_give self.new ≡ [] }
        ensures ungiven { IsUngiven self.new }
    {
        self.collected.clear();
        self.parts.clear();
        self.end = ToldEnd::Over;
        self.given = 0;
        self.stores_given = 0;
        self.prints_given = 0;
        self.last = Last::NoMemory;
    }

    /// Where the stores and the prints of the next clean iteration begin.
    pub(crate) fn begun(&self) -> Begun
        ensures { result ≡ begun_of self.now }
    {
        Begun {
            stores: self.collected.stores.len(),
            prints: self.collected.prints.len(),
        }
    }

    /// One clean iteration more: its stores and prints are all that has come behind those that were told.
    pub(crate) fn add(&mut self, begun: Begun, steps: u64, closing: bool) -> Result<(), NoMemory>
        ensures more { (t : ToldBatch) → IsUngiven t → (grown : GrownTo t self.old) → begun ≡ begun_of t →
            OnOk result (AddedTo t self.old grown steps closing self.new) }
        ensures same { OnErr result (cleans self.new ≡ cleans self.old) }
        ensures collected { self.new.collected ≡ self.old.collected }
    {
        self.parts.push(Part {
            stores: self.collected.stores.len().saturating_sub(begun.stores),
            prints: self.collected.prints.len().saturating_sub(begun.prints),
            steps,
            closing,
        })
    }

    /// Nothing was done: the memory is again what it was before the iteration.
    pub(crate) fn undo(&mut self, cells: &mut Cells)
        ensures cells { cells.new ≡ undone self.old.collected.before cells.old }
        ensures cleans { cleans self.new ≡ cleans self.old }
    {
        self.collected.undo(cells);
    }

    /// This stands behind the clean iterations.
    pub(crate) fn end_with(&mut self, end: ToldEnd)
        ensures cleans { cleans self.new ≡ cleans self.old }
        ensures left { left_to_give self.new ≡ cleans self.old ++ end_verdicts end }
    {
        self.end = end;
    }

    /// The epoch goes on behind each verdict that wasn't given yet.
    pub fn goes_on(&self) -> bool
        ensures { result ≡ list_all goes_on_behind (left_to_give self.now) }
    {
        let stays = none_closes(left_from(self.parts.as_slice(), self.given));
        let over = is_over(self.end);
        stays && over
    }

    /// What is carried of the clean iteration of this part, whose stores and prints begin there.
    fn carried(&self, part: Part, stores: usize, prints: usize) -> Clean<'_>
        ensures { result ≡ carried_by part stores prints self.now.collected.stores self.now.collected.prints }
    {
        let stores = part_of(self.collected.stores.as_slice(), stores, part.stores);
        let prints = part_of(self.collected.prints.as_slice(), prints, part.prints);
        Clean::agree(stores, prints, part.steps, part.closing)
    }

    /// The next one is given, on the clean iteration of this part.
    fn pass(&mut self, part: Part)
        requires { slice_get self.old.parts self.old.given ≡ Some part }
        ensures { GivesNext true self.old self.new }
    {
        let parts = self.parts.len();
        let stores = self.collected.stores.len();
        let prints = self.collected.prints.len();
        let given = place_behind(self.given, 1, parts);
        let stores_given = place_behind(self.stores_given, part.stores, stores);
        let prints_given = place_behind(self.prints_given, part.prints, prints);
        self.last = Last::Clean {
            part,
            stores: self.stores_given,
            prints: self.prints_given,
        };
        self.given = given;
        self.stores_given = stores_given;
        self.prints_given = prints_given;
    }

    /// What stands behind the clean iterations is given, if there is something.
    fn next_end(&mut self) -> bool
        requires { length self.old.parts ≤ self.old.given }
        ensures { GivesNext result self.old self.new }
    {
        let end = self.end;
        self.end = ToldEnd::Over;
        match end {
            ToldEnd::Over => false,
            ToldEnd::Unclean => {
                self.last = Last::Unclean;
                true
            }
            ToldEnd::NoMemory => {
                self.last = Last::NoMemory;
                true
            }
        }
    }

    /// Whether there is a further verdict, which is the last one given then.
    pub fn next(&mut self) -> bool
        ensures { GivesNext result self.old self.new }
    {
        match self.parts.get(self.given) {
            Some(part) => {
                let part = *part;
                self.pass(part);
                true
            }
            None => self.next_end(),
        }
    }

    /// The verdict that was given last: want of memory before the first.
    pub fn verdict(&self) -> Verdict<'_>
        ensures { result ≡ last_given self.now }
    {
        match self.last {
            Last::Clean {
                part,
                stores,
                prints,
            } => Verdict::Clean(self.carried(part, stores, prints)),
            Last::Unclean => Verdict::Unclean,
            Last::NoMemory => Verdict::NoMemory,
        }
    }
}
