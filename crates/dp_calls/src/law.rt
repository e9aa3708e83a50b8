ghost use Rattle.std.specs.Prelude.{◌≡◌, ◌≤◌, true, length};
ghost use Rattle.std.specs.List.{list_all};
ghost use Rattle.dp_base.specs.declared.limits.TheConstants.{INLINED_SIZE};
ghost use Rattle.dp_tree.specs.Checked.{IsChecked};
ghost use Rattle.dp_tree.specs.Inlined.{IsInlined};
ghost use Rattle.dp_tree.specs.Numbering.{is_small_region};
ghost use Rattle.dp_calls.specs.AtHome.{stores_at_home, KeepsNumbersSmall};
ghost use Rattle.dp_calls.specs.Expand.{expand};
ghost use Rattle.dp_calls.specs.ExpandLaws.{KeepsText, LeavesNoCall};
ghost use Rattle.dp_calls.specs.Meaning.{SameMeaning};
ghost use Rattle.dp_calls.specs.Starts.{locals_start_clear};

use dp_tree::Program;

/// An expanded program has no call, and a program without calls is its own expansion up to the numbers of its sites
/// and variables.
pub fn expansion_leaves_no_call(p: &Program)
    ensures no_call { LeavesNoCall p.now }
    ensures same_text { KeepsText p.now }
{}

/// A checked program with call frames and its expansion do the same: prints, steps, end and file-scope values, for
/// every input and fuel.
pub fn expansion_keeps_the_meaning(p: &Program)
    requires { IsChecked p.now }
    ensures same { SameMeaning p.now }
{}

/// The expansion of a checked program, unless it is too large, is what the machine, plans and the central theorem ask of
/// a program: no call is left, and variables, cells, sites and regions are numbered in text order.
pub fn expansion_is_inlined(p: &Program)
    requires checked { IsChecked p.now }
    requires sites { length (expand p.now).sites ≤ INLINED_SIZE }
    requires regions { list_all is_small_region (expand p.now).regions ≡ true }
    ensures inlined { IsInlined (expand p.now) }
{}

/// The expansion of a checked program stores into the locals of a region's body inside that region alone.
pub fn expansion_stores_at_home(p: &Program)
    requires checked { IsChecked p.now }
    ensures home { stores_at_home (expand p.now) ≡ true }
{}

/// Where the numbers of a program fit 64 bits, so do those of its expansion.
pub fn expansion_keeps_numbers_small(p: &Program)
    ensures numbers { KeepsNumbersSmall p.now }
{}

/// The locals of an expanded program start at 0 where those of the checked program do.
pub fn expansion_keeps_starts(p: &Program)
    requires checked { IsChecked p.now }
    requires starts { locals_start_clear p.now ≡ true }
    ensures starts { locals_start_clear (expand p.now) ≡ true }
{}
