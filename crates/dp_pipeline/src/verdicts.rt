//! The verdicts of an epoch as they come out of their lane.
use crate::judged::Judged;
use crate::spare::Back;
use crate::told::Told;
use crate::unit::Unit;
use dp_base::Row;
use dp_edge::OpenGate;
use dp_judge::Verdict;
use dp_lane::TakeEnd;
use dp_relay::Polled;
use dp_waiting::Pause;
use std::alloc::Global;
use std::marker::Model;
use std::sync::Wait;
use std::time::Clock;

/// The end of the verdict lane, and the units that no thread runs.
pub struct LaneVerdicts<'u> {
    end: TakeEnd<Judged<'u>>,
    own: Row<Unit<'u>>,
    pause: Pause<'u>,
    /// What came, and how much of it was given.
    told: Told,
    /// Where the batches that were judged are sent back.
    back: Back<'u>,
}

// By hand, so that a crate above doesn't prove again how all that they hold is dropped.
impl<'u> Drop for LaneVerdicts<'u> {
    fn drop(self) {
        let LaneVerdicts {
            end: _,
            own: _,
            pause: _,
            told: _,
            back: _,
        } = self;
    }
}

impl<'u> Model for LaneVerdicts<'u> {
    ghost use Rattle.dp_tree.specs.contracts.Expr as expr;
    ghost use Rattle.dp_tree.specs.contracts.Stmt as stmt;
    ghost use Rattle.std.specs.Coded.{codes};
    ghost use Rattle.dp_pipeline.specs.Coming.{Coming, coming_on};
    ghost use Rattle.dp_pipeline.specs.Left.{AwaitsOn, last_told};

    ghost Value = { Coming };

    ghost coded = { Prim.hlevel (codes, expr.the_row.coded, stmt.the_row.coded) };

    ghost view = { λ v. coming_on v.end.view v.told.given (last_told v.told) };

    ghost invariant = { λ v. AwaitsOn v.end.view v.back.end.view v.told };
}

impl<'u> LaneVerdicts<'u> {
    ghost use Rattle.std.specs.Prelude.{◌≡◌, ◌+◌, ◌<◌, ℕ, true};
    ghost use Rattle.dp_semantics.specs.EpochVerdicts.{goes_on, verdict_at};
    ghost use Rattle.dp_judge.specs.declared.verdict.Verdict.TheVariants as verdict;
    ghost use Rattle.dp_judge.specs.Told.{SaysDecided};
    ghost use Rattle.dp_pipeline.specs.Coming.{ComesNext, coming_on};
    ghost use Rattle.dp_pipeline.specs.Left.{BackOf};
    ghost use Rattle.dp_pipeline.specs.Standing.{taker_count};

    /// Verdicts that come on this end, from which nothing was taken, and no units. Batches that were judged are sent back.
    pub(crate) fn new(alloc: Global, end: TakeEnd<Judged<'u>>, back: Back<'u>) -> LaneVerdicts<'u>
        requires none { taker_count end.view ≡ 0 }
        requires back { BackOf end.view back.end.view }
        ensures { result ≡ coming_on end.entry.view 0 verdict.NoMemory }
    {
        LaneVerdicts {
            end,
            own: Row::new(alloc),
            pause: Pause::at(&[], 0),
            told: Told::none(alloc),
            back,
        }
    }

    /// The same, with units that no thread runs: they are polled where no verdict is there.
    pub fn polling(self, units: Row<Unit<'u>>) -> LaneVerdicts<'u>
        ensures { result ≡ self.entry }
    {
        let LaneVerdicts {
            end,
            own: _,
            pause,
            told,
            back,
        } = self;
        LaneVerdicts {
            end,
            own: units,
            pause,
            told,
            back,
        }
    }

    /// From now on it waits by this pause, for units that threads run.
    pub fn wait_by(&mut self, pause: Pause<'u>)
        ensures { self.new ≡ self.old }
    {
        self.pause = pause;
    }

    /// How many units it polls.
    pub fn units(&self) -> usize {
        self.own.len()
    }

    /// The last of the units that it polls, which it polls no longer.
    pub fn pop_unit(&mut self) -> Option<Unit<'u>>
        ensures { self.new ≡ self.old }
    {
        self.own.pop()
    }

    /// The last of the units that it polls stands first.
    pub fn turn_units(&mut self)
        ensures { self.new ≡ self.old }
    {
        if !self.own.is_empty() {
            self.own.as_mut_slice().rotate_right(1);
        }
    }

    /// Gives the verdict on the next iteration. There is none after one that isn't Clean or that closes the region.
    pub fn next<R: Wait + Clock>(&mut self, rt: &R)
        requires { (n : ℕ) → n < self.old.given → goes_on (verdict_at self.old.key n) ≡ true }
        ensures verdict { SaysDecided self.old.key self.new.last (verdict_at self.old.key self.old.given) }
        ensures key { self.new.key ≡ self.old.key }
        ensures given { self.new.given ≡ self.old.given + 1 }
    {
        if !self.give() {
            self.await_next(rt);
        }
    }

    /// The same, where none is left of those that came. It is out of line, so that what is frequent stays short.
    #[inline(never)]
    fn await_next<R: Wait + Clock>(&mut self, rt: &R)
        requires { (n : ℕ) → n < self.old.given → goes_on (verdict_at self.old.key n) ≡ true }
        ensures verdict { SaysDecided self.old.key self.new.last (verdict_at self.old.key self.old.given) }
        ensures key { self.new.key ≡ self.old.key }
        ensures given { self.new.given ≡ self.old.given + 1 }
    {
        'turns: for _ in rt.forever() {
            if self.take(rt) {
                return;
            }
            self.poll_own(rt);
        }
        unreachable!()
    }

    /// Gives the next of the verdicts that came, if one is left.
    #[inline(always)]
    fn give(&mut self) -> bool
        ensures { ComesNext result self.old self.new }
    {
        self.told.next()
    }

    /// The verdict that was given last: want of memory before the first.
    pub fn verdict(&self) -> Verdict<'_>
        ensures { result ≡ self.now.last }
    {
        self.told.verdict()
    }

    /// Gives the next verdict, if it has come.
    fn take<R: Wait>(&mut self, rt: &R) -> bool
        ensures { ComesNext result self.old self.new }
    {
        if self.told.next() {
            return true;
        }
        if self.told.over {
            return false;
        }
        match self.end.take(rt) {
            Some(judged) => {
                self.pause.moved();
                let spare = self.told.refill(judged);
                self.back.send(rt, spare);
                self.told.next()
            }
            None => false,
        }
    }

    /// Polls each unit that has no thread, and waits a little where none of them moved.
    fn poll_own<R: Wait + Clock>(&mut self, rt: &R)
        ensures { self.new ≡ self.old }
    {
        if poll_all(rt, &mut self.own) {
            self.pause.moved();
        } else {
            self.pause.wait(rt);
        }
    }
}

/// Polls each unit, and says whether one of them moved.
fn poll_all<R: Wait>(rt: &R, units: &mut Row<Unit<'_>>) -> bool {
    let mut moved = false;
    for unit in units.as_mut_slice() {
        moved |= unit.poll(rt, &OpenGate) == Polled::Moved;
    }
    moved
}
