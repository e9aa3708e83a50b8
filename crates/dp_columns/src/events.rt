//! Pairs, so many for each event.
ghost use Rattle.std.specs.Prelude.{◌≡◌, ◌<◌, ◌≤◌, ◌-◌, ◌+◌, [], List, length, map, drop, slice_get, Some, OnOk, OnErr};
ghost use Rattle.dp_tree.specs.Eval.{Load};
ghost use Rattle.dp_columns.specs.Paired.{pair_load, with_pairs, event_ended};
ghost use Rattle.dp_columns.specs.Ahead.{IsReached, FindsNext};

use crate::Pair;
use crate::pairs::{Pairs, Part};
use dp_room::{NoMemory, Row};
use std::alloc::Global;
use std::marker::Model;

/// Pairs, so many for each event. Contracts see the pairs of each event, and those of one that isn't ended.
#[derive(Drop)]
pub(crate) struct Events {
    counts: Row<usize>,
    /// How many pairs are of ended events.
    settled: usize,
    pairs: Pairs,
}

/// How far events were read: so many events, and so many pairs of them.
#[derive(Clone, Copy)]
pub(crate) struct Mark {
    pub(crate) at: usize,
    pub(crate) from: usize,
}

/// The pairs of the next event, and the mark behind it.
#[derive(Clone, Copy)]
pub(crate) struct Next<'e> {
    pub(crate) part: Part<'e>,
    pub(crate) behind: Mark,
}

impl Model for Events {
    ghost use Rattle.std.specs.Prelude.{◌≡◌, ◌≤◌, List, length, drop};
    ghost use Rattle.std.specs.List.{sum};
    ghost use Rattle.dp_columns.specs.Paired.{Grouped, split_by};

    ghost Value = { Grouped };

    ghost view = { λ events. record { ended = split_by events.counts events.pairs; unfinished = drop events.settled events.pairs } };

    ghost invariant = { λ events. (events.settled ≡ sum events.counts) × (events.settled ≤ length events.pairs) };
}

/// The count at a place.
#[inline(always)]
fn count_at(counts: &[usize], at: usize) -> usize
    requires { at < length counts.now }
    ensures { slice_get counts.now at ≡ Some result }
{
    counts[at]
}

/// Where so many pairs end, which are settled.
#[inline(always)]
fn end_of(from: usize, count: usize, settled: usize) -> usize
    requires { from + count ≤ settled }
    ensures { result ≡ from + count }
{
    from + count
}

impl Events {
    /// None. It takes no memory until a pair is put.
    pub(crate) fn new(alloc: Global) -> Events
        ensures { result ≡ record { ended = []; unfinished = [] } }
    {
        Events {
            counts: Row::new(alloc),
            settled: 0,
            pairs: Pairs::new(alloc),
        }
    }

    /// More pairs of the event that isn't ended.
    #[inline(always)]
    fn put_all(&mut self, pairs: &[Pair]) -> Result<(), NoMemory>
        ensures ok { OnOk result (self.new ≡ with_pairs (map pair_load pairs.now) self.old) }
        ensures more { (more : List Load) × (self.new ≡ with_pairs more self.old) }
    {
        self.pairs.put_all(pairs)
    }

    /// The event is ended.
    #[inline(always)]
    fn end(&mut self) -> Result<(), NoMemory>
        ensures ok { OnOk result (self.new ≡ event_ended self.old) }
        ensures err { OnErr result (self.new ≡ self.old) }
    {
        let len = self.pairs.len();
        self.counts.push(len - self.settled)?;
        self.settled = len;
        Ok(())
    }

    /// An event is ended, with these pairs behind those that are put.
    #[inline(always)]
    pub(crate) fn put(&mut self, pairs: &[Pair]) -> Result<(), NoMemory>
        ensures ok { OnOk result (self.new ≡ event_ended (with_pairs (map pair_load pairs.now) self.old)) }
        ensures err { OnErr result (self.new.ended ≡ self.old.ended) }
    {
        self.put_all(pairs)?;
        self.end()
    }

    /// The event at the mark.
    #[inline(always)]
    pub(crate) fn next(&self, mark: Mark) -> Option<Next<'_>>
        requires { IsReached self.now.ended mark }
        ensures { FindsNext self.now.ended mark result }
    {
        let counts = self.counts.as_slice();
        if mark.at >= counts.len() {
            return None;
        }
        let to = end_of(mark.from, count_at(counts, mark.at), self.settled);
        Some(Next {
            part: self.pairs.part(mark.from, to),
            behind: Mark {
                at: mark.at + 1,
                from: to,
            },
        })
    }

    /// No event. The room stays.
    pub(crate) fn clear(&mut self)
        ensures { self.new ≡ record { ended = []; unfinished = [] } }
    {
        self.counts.clear();
        self.pairs.clear();
        self.settled = 0;
    }
}
