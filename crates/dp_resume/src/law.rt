//! Laws of the definitions, as contracts of functions that do nothing.
ghost use Rattle.dp_resume.specs.Laws.{GoesOnInText, SavedFits, SavedIsRead};

use dp_plan::Plan;
use dp_tree::Program;

/// What is written before a checkpoint, and behind it what the run that goes on from it writes, is the text of one run.
pub fn resumed_text_goes_on(p: &Program, plans: &[Plan])
    ensures { GoesOnInText p.now plans.now }
{}

/// The checkpoint that is saved in a run fits its program, and its text is read back as this checkpoint and nothing else.
pub fn saved_checkpoints_are_read(p: &Program, plans: &[Plan])
    ensures fits { SavedFits p.now plans.now }
    ensures read { SavedIsRead p.now plans.now }
{}
