//! Where verdicts come from.
ghost use Rattle.std.specs.Prelude.{◌≡◌, ◌+◌, ◌<◌, ℕ, true};
ghost use Rattle.dp_semantics.specs.EpochKey.{EpochKey};
ghost use Rattle.dp_semantics.specs.EpochVerdicts.{goes_on, verdict_at};
ghost use Rattle.dp_judge.specs.declared.verdict.Verdict.{Verdict as Told};
ghost use Rattle.dp_judge.specs.Told.{SaysDecided};

use dp_judge::Verdict;
use dp_pipeline::LaneVerdicts;
use std::sync::Wait;
use std::time::Clock;

/// The verdicts on the iterations of one epoch, in order.
pub trait Verdicts {
    /// What the epoch depends on.
    ghost key: { Self → EpochKey };

    /// How many verdicts were given.
    ghost given: { Self → ℕ };

    /// The verdict that was given last.
    ghost last: { Self → Told };

    /// Gives the verdict on the next iteration. There is none after one that isn't Clean or that closes the region.
    fn next<R: Wait + Clock>(&mut self, rt: &R)
        requires { (n : ℕ) → n < given self.old → goes_on (verdict_at (key self.old) n) ≡ true }
        ensures verdict { SaysDecided (key self.old) (last self.new) (verdict_at (key self.old) (given self.old)) }
        ensures key { key self.new ≡ key self.old }
        ensures given { given self.new ≡ given self.old + 1 };

    /// The verdict that was given last. What it carries is lent until the next one is given.
    fn verdict(&self) -> Verdict<'_>
        ensures { result ≡ last self.now };
}

impl<'u> Verdicts for LaneVerdicts<'u> {
    ghost key = { λ v. v.key };

    ghost given = { λ v. v.given };

    ghost last = { λ v. v.last };

    fn next<R: Wait + Clock>(&mut self, rt: &R) {
        LaneVerdicts::next(self, rt)
    }

    fn verdict(&self) -> Verdict<'_> {
        LaneVerdicts::verdict(self)
    }
}
