//! The verdicts of the batch that came last.
ghost use Rattle.std.specs.Prelude.{◌≡◌, ◌+◌, ◌<◌, ◌^◌, [], false, length};
ghost use Rattle.dp_judge.specs.declared.verdict.Verdict.TheVariants as verdict;
ghost use Rattle.dp_judge.specs.Decided.{left_to_give};
ghost use Rattle.dp_pipeline.specs.Carried.{is_over};
ghost use Rattle.dp_pipeline.specs.Left.{GivesNextTold, last_told, left_of};

use crate::ending::is_last_told;
use crate::judged::Judged;
use crate::spare::Spare;
use dp_judge::{ToldBatch, Verdict};
use std::alloc::Global;
use std::mem;

/// Verdicts that came together, and how many were given so far.
#[derive(Drop)]
pub(crate) struct Told {
    pub(crate) batch: ToldBatch,
    /// No others follow.
    pub(crate) over: bool,
    pub(crate) given: u64,
}

impl Told {
    /// None came yet.
    pub(crate) fn none(alloc: Global) -> Told
        ensures left { left_of result ≡ [] }
        ensures last { last_told result ≡ verdict.NoMemory }
        ensures start { (result.over ≡ false) × (result.given ≡ 0) }
    {
        Told {
            batch: ToldBatch::new(alloc),
            over: false,
            given: 0,
        }
    }

    /// Whether there is a further one, which is the last one given then.
    pub(crate) fn next(&mut self) -> bool
        requires { self.old.given + length (left_of self.old) < 2 ^ 63 }
        ensures { GivesNextTold result self.old self.new }
    {
        if self.batch.next() {
            self.given += 1;
            true
        } else {
            false
        }
    }

    /// The verdict that was given last.
    pub(crate) fn verdict(&self) -> Verdict<'_>
        ensures { result ≡ last_told self.now }
    {
        self.batch.verdict()
    }

    /// Others came; what they were in goes back.
    pub(crate) fn refill<'p>(&mut self, judged: Judged<'p>) -> Spare<'p>
        ensures left { left_of self.new ≡ left_to_give judged.entry.told }
        ensures over { self.new.over ≡ is_over judged.entry }
        ensures given { self.new.given ≡ self.old.given }
        ensures line { result.batch.line ≡ judged.entry.batch.line }
    {
        let Judged { mut told, batch } = judged;
        self.over = is_last_told(batch.get(), told.get());
        mem::swap(&mut self.batch, told.get_mut());
        Spare { batch, told }
    }
}
