//! Laws of the definitions, as functions whose contracts state them.
ghost use Rattle.std.specs.Prelude.{◌≡◌, ℕ, ℤ, Bool, List, Option, Some};
ghost use Rattle.dp_tree.specs.Checked.{IsChecked};
ghost use Rattle.dp_tree.specs.Inlined.{IsInlined};
ghost use Rattle.dp_calls.specs.Expand.{expand};
ghost use Rattle.dp_plan.specs.declared.Plan.{Plan};
ghost use Rattle.dp_drive.specs.Answer.{Answer};
ghost use Rattle.dp_drive.specs.RunText.{TextsAgree};
ghost use Rattle.dp_drive.specs.SavedText.{SavedTextsAreRead};
ghost use Rattle.dp_load.specs.Roles.{Contents};

use dp_tree::Program;

/// Where a shelf tells what it holds, words have one answer only.
pub fn words_have_one_answer()
    ensures { (words : List (List ℕ)) (held : List ℕ → Option (List ℕ)) (status other : ℕ) (bytes more : List ℕ) →
        Answer words (Some held) status bytes → Answer words (Some held) other more → (status ≡ other) × (bytes ≡ more) }
{}

/// What is written of a run, which is said by the source with a frame for each call, may be said over the trace of the
/// program with its calls expanded: so a run that goes on from within can be told.
pub fn run_texts_agree(p: &Program)
    requires checked { IsChecked p.now }
    requires inlined { IsInlined (expand p.now) }
    ensures { (plans : List Plan) (input : List ℤ) (fuel : ℕ) (why : Bool) → TextsAgree p.now plans input fuel why }
{}

/// Where the place at which a run is to be saved is reached, what is written ends with the checkpoint there, and this is read
/// back as that checkpoint and nothing else.
pub fn saved_texts_are_read()
    ensures { (contents : Contents) → SavedTextsAreRead contents }
{}
