//! The laws of an epoch, as contracts of functions that do nothing.

ghost use Rattle.std.specs.Prelude.{◌≡◌, ℕ, true, List};
ghost use Rattle.dp_tree.specs.Inlined.{IsInlined};
ghost use Rattle.dp_semantics.specs.Fits.{fits_plan};
ghost use Rattle.dp_semantics.specs.EpochKey.{EpochKey};
ghost use Rattle.dp_net.specs.NetItems.{Marks};
ghost use Rattle.dp_columns.specs.declared.ColumnKind.{ColumnKind};
ghost use Rattle.dp_lean_epoch.specs.Holding.{Kept, HavePlaces};
ghost use Rattle.dp_lean_epoch.specs.Steps.{StageSteps, WorkersBegin, VoidStays};
ghost use Rattle.dp_lean_epoch.specs.JudgeSteps.{JudgeSteps, VoidsRecover};
ghost use Rattle.dp_lean_epoch.specs.Midway.{MidwaySteps, JudgeMidwaySteps};
ghost use Rattle.dp_lean_epoch.specs.Laws.{InEpochs, EpochBegins, BatchStands, BatchEnds, BatchesAreKept, ComeOneByOne};
ghost use Rattle.dp_lean_epoch.specs.Laws.{FreshBatch, BatchesAre, BatchesExtend, BatchesCome, ColumnsFill};

use dp_plan::Plan;
use dp_tree::Program;

/// Where an epoch begins, each stage and the judge stand at its first iteration in the base memory.
pub fn epochs_begin()
    ensures { (m : Marks) (key : EpochKey) → EpochBegins m key }
{}

/// A stage's code comes to an end at each iteration whose packet isn't void: it tells what the stage tells, leaves of the queues what is behind the iteration,
/// and its memory stands at the next one; or it breaks off where the stage does. So it is of workers too, where their stage doesn't load what it stores itself,
/// and they may begin a batch with the memory of the stage before them.
pub fn stages_step(p: &Program, plan: &Plan)
    requires inlined { IsInlined p.now }
    requires fits { fits_plan p.now plan.now ≡ true }
    ensures steps { InEpochs StageSteps p.now plan.now }
    ensures workers { InEpochs WorkersBegin p.now plan.now }
    ensures voids { (m : Marks) (key : EpochKey) → VoidStays m key }
{}

/// The lean judging comes to an end at each iteration whose packet isn't void, and decides the verdict with the number of steps that the stages counted;
/// behind what is committed it stands at the next iteration. An iteration whose packet is void is executed again.
pub fn judges_step(p: &Program, plan: &Plan)
    requires inlined { IsInlined p.now }
    requires fits { fits_plan p.now plan.now ≡ true }
    ensures steps { InEpochs JudgeSteps p.now plan.now }
    ensures voids { InEpochs VoidsRecover p.now plan.now }
{}

/// How the iterations of a batch stand is said one by one, and what comes in its queues comes so.
/// A batch has at most one iteration where some stage doesn't keep its memory.
pub fn batches_stand()
    ensures standing { (m : Marks) (key : EpochKey) (cap s b : ℕ) → BatchStands m key cap s b }
    ensures ends { (m : Marks) (key : EpochKey) (s k r : ℕ) → BatchEnds m key s k r }
    ensures coming { (m : Marks) (key : EpochKey) (s k j : ℕ) → ComeOneByOne m key s k j }
    ensures kept { (m : Marks) (key : EpochKey) → BatchesAreKept m key }
{}

/// What is sent of a batch goes from stage to stage with one stage's columns more, and its queues begin with what its iterations tell.
/// Something is sent of each batch.
pub fn batches_extend(p: &Program, plan: &Plan)
    requires fits { fits_plan p.now plan.now ≡ true }
    ensures fresh { (kept : Kept) → InEpochs (λ m key. FreshBatch m key kept) p.now plan.now }
    ensures extend { (m : Marks) (key : EpochKey) (kept : Kept) → BatchesExtend m key kept }
    ensures come { (m : Marks) (key : EpochKey) (kept : Kept) → BatchesCome m key kept }
    ensures are { (kept : Kept) (kinds : List ColumnKind) → InEpochs (λ m key. BatchesAre m key kept kinds) p.now plan.now }
{}

/// Own items that are put into columns, iteration after iteration, are held there.
pub fn columns_fill()
    ensures { (m : Marks) (key : EpochKey) (kept : Kept) (kinds : List ColumnKind) → HavePlaces m key kept kinds → ColumnsFill m key kept kinds }
{}

/// A loop over a batch's iterations keeps where a stage stands, and where the judge does.
pub fn midways_step(p: &Program, plan: &Plan)
    requires inlined { IsInlined p.now }
    requires fits { fits_plan p.now plan.now ≡ true }
    ensures stage { (kept : Kept) (kinds : List ColumnKind) → InEpochs (λ m key. HavePlaces m key kept kinds → MidwaySteps m key kept kinds) p.now plan.now }
    ensures judge { InEpochs JudgeMidwaySteps p.now plan.now }
{}
