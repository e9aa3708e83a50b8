//! The judging of the iterations of a batch, one after the other.
ghost use Rattle.std.specs.Prelude.{◌≡◌, ◌<◌, ◌≤◌, ℕ};
ghost use Rattle.dp_lean_judge.specs.Ready.{AllKept};
ghost use Rattle.dp_lean_judge.specs.Collecting.{undone};
ghost use Rattle.dp_lean_region.specs.LeanEpoch.{LeanEpoch};
ghost use Rattle.dp_judge.specs.Decided.{cleans};
ghost use Rattle.dp_judge.specs.steps.Adding.{GrownTo, IsUngiven, begun_of};
ghost use Rattle.dp_judge.specs.steps.Within.{CameIn, CameTo, Comes, JudgesBy, Within};
ghost use Rattle.dp_judge.specs.steps.Deciding.{CommitsSo, SeesAs, going_by};
ghost use Rattle.dp_judge.specs.declared.judging.Decision.TheVariants as decision;

use crate::fuel::left_behind;
use crate::told::{Begun, ToldBatch};
use dp_base::Cells;
use dp_columns::Reader;
use dp_lean_judge::{LeanJudged, clear, lean_judge};
use dp_lean_machine::StageColumns;
use dp_lean_region::JudgeTables;
use dp_room::Row;

/// What is decided of an iteration, and whether another follows.
#[derive(Clone, Copy)]
pub(crate) enum Decision {
    Goes,
    /// It leaves the region.
    Closes,
    /// It is to be executed again.
    Unclean,
    NoMemory,
}

/// Where the judging stands, and what it works with.
pub(crate) struct Bench {
    /// How many steps are left of the fuel.
    pub(crate) left: u64,
    /// A memory before the next iteration: what the judging compares is right in it. Where it compares nothing, that where the epoch began.
    pub(crate) cells: Cells,
}

// By hand, so that a crate above doesn't prove again how all that it holds is dropped.
impl Drop for Bench {
    fn drop(self) {
        let Bench { left: _, cells: _ } = self;
    }
}

/// Another iteration follows one that is clean, unless it leaves the region.
fn going(closing: bool) -> Decision
    ensures { result ≡ going_by closing }
{
    if closing {
        Decision::Closes
    } else {
        Decision::Goes
    }
}

impl Bench {
    /// The judging where an epoch begins.
    pub(crate) fn new(base: Cells, left: u64) -> Bench
        ensures left { result.left ≡ left }
        ensures cells { result.cells ≡ base }
    {
        Bench { left, cells: base }
    }

    /// What the next iteration's judging comes to. What is collected comes behind what was told.
    fn look<'c>(
        &mut self,
        ready: &dp_lean_judge::Ready,
        readers: &mut Row<Reader<'c>>,
        told: &mut ToldBatch,
    ) -> LeanJudged
        requires { AllKept readers.old ready.now.entries }
        ensures kept { AllKept readers.new ready.now.entries }
        ensures left { self.new.left ≡ self.old.left }
        ensures before { undone told.new.collected.before self.new.cells ≡ self.old.cells }
        ensures grown { GrownTo told.old told.new }
        ensures judged { SeesAs ready.now self.old.cells readers.old told.old.collected result self.new.cells readers.new told.new.collected }
    {
        lean_judge(ready, &mut self.cells, readers, &mut told.collected)
    }

    /// The iteration is clean, and leaves this of the fuel.
    fn commit<'p>(
        &mut self,
        tables: JudgeTables<'p>,
        begun: Begun,
        after: u64,
        closing: bool,
        told: &mut ToldBatch,
    ) -> Decision
        requires less { after ≤ self.old.left }
        ensures { (t : ToldBatch) → IsUngiven t → (grown : GrownTo t told.old) → begun ≡ begun_of t →
            CommitsSo tables.entry after closing self.old self.new t told.old grown told.new result }
    {
        match told.add(begun, self.left - after, closing) {
            Ok(()) => {
                if tables.ready.compares {
                    clear(tables.locals, &mut self.cells);
                }
                self.left = after;
                going(closing)
            }
            Err(_) => {
                told.undo(&mut self.cells);
                Decision::NoMemory
            }
        }
    }

    /// What is decided of the next iteration. Where it isn't clean the memory is again what it was before it.
    fn decide<'c, 'p>(
        &mut self,
        tables: JudgeTables<'p>,
        stages: &[StageColumns],
        place: usize,
        readers: &mut Row<Reader<'c>>,
        told: &mut ToldBatch,
    ) -> Decision
        requires kept { AllKept readers.old tables.ready.now.entries }
        requires ungiven { IsUngiven told.old }
        ensures kept { AllKept readers.new tables.entry.ready.now.entries }
        ensures ungiven { result ≡ decision.Goes → IsUngiven told.new }
        ensures comes { (e : LeanEpoch) (b n : ℕ) → CameIn e b n stages.now → JudgesBy e tables.entry → place < n →
            Within e b n place self.old.left self.old.cells readers.old (cleans told.old) →
            Comes e b n place result self.new.left self.new.cells readers.new (cleans told.new) }
    {
        let begun = told.begun();
        match self.look(tables.ready, readers, told) {
            LeanJudged::Holds { closing } => match left_behind(self.left, stages, place) {
                Some(after) => self.commit(tables, begun, after, closing, told),
                None => {
                    told.undo(&mut self.cells);
                    Decision::Unclean
                }
            },
            LeanJudged::Differs => {
                told.undo(&mut self.cells);
                Decision::Unclean
            }
            LeanJudged::NoMemory => {
                told.undo(&mut self.cells);
                Decision::NoMemory
            }
        }
    }

    /// What is decided of so many iterations, up to the first behind which none follows: that of the last one that was judged.
    pub(crate) fn decide_all<'c, 'p>(
        &mut self,
        tables: JudgeTables<'p>,
        stages: &[StageColumns],
        iterations: usize,
        readers: &mut Row<Reader<'c>>,
        told: &mut ToldBatch,
    ) -> Decision
        requires kept { AllKept readers.old tables.ready.now.entries }
        requires ungiven { IsUngiven told.old }
        ensures comes { (e : LeanEpoch) (b : ℕ) → CameIn e b iterations stages.now → JudgesBy e tables.entry →
            Within e b iterations 0 self.old.left self.old.cells readers.old (cleans told.old) →
            CameTo e b iterations result self.new.left self.new.cells (cleans told.new) }
    {
        for place in 0..iterations {
            match self.decide(tables, stages, place, readers, told) {
                Decision::Goes => {}
                Decision::Closes => return Decision::Closes,
                Decision::Unclean => return Decision::Unclean,
                Decision::NoMemory => return Decision::NoMemory,
            }
        }
        Decision::Goes
    }
}
