//! Laws of the definitions, as functions whose contracts state them.
ghost use Rattle.dp_tree.specs.Inlined.{IsInlined};
ghost use Rattle.dp_load.specs.AtHome.{ReadNumbersFit, ReadProgramsAreAtHome, ReadProgramsStartClear};
ghost use Rattle.dp_load.specs.ReadPlans.{ReadPlansAreReady};

use dp_tree::Program;

/// What `read_plans` answers for an inlined program fits it, so that its stage programs are projections and the central
/// theorem speaks of it.
pub fn read_plans_are_ready(p: &Program)
    requires { IsInlined p.now }
    ensures { ReadPlansAreReady p.now }
{}

/// What is run for a text stores into the locals of a region's body inside that region alone, and the numbers that stand in
/// it fit 64 bits.
pub fn read_programs_are_at_home(text: &[u8])
    ensures home { ReadProgramsAreAtHome text.now }
{}

/// Each number that an input's text is read as fits 64 bits.
pub fn read_numbers_fit(text: &[u8])
    ensures fits { ReadNumbersFit text.now }
{}

/// The locals of what is run for a text start at 0.
pub fn read_programs_start_clear(text: &[u8])
    ensures starts { ReadProgramsStartClear text.now }
{}
