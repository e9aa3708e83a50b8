//! What is so of every text and of every program that was checked.

ghost use Rattle.std.specs.Prelude.{◌≡◌, Ok, true, []};
ghost use Rattle.std.specs.List.{list_all};
ghost use Rattle.dp_tree.specs.declared.Program.{Program};
ghost use Rattle.dp_tree.specs.declared.raw.RawProgram.{RawProgram};
ghost use Rattle.dp_tree.specs.Checked.{IsChecked};
ghost use Rattle.dp_check.specs.Checked.{has_length, breaks_fit};
ghost use Rattle.dp_check.specs.Marks.{read_off, text_marks};
ghost use Rattle.dp_check.specs.CheckAnswer.{names_of, check_answer};

/// A law, and no work: a program that was checked has its file-scope variables first and its cells one after the other,
/// its sites numbered in text order, its regions at the top of `main` alone, and each of its names in scope, if each
/// array of the text has an element at least and its breaks stand at the top of regions' bodies.
pub fn checked_programs()
    ensures { (raw : RawProgram) → (p : Program) → list_all has_length raw.items ≡ true → breaks_fit raw ≡ true → check_answer raw ≡ Ok p → IsChecked p }
{}

/// A law, and no work: the names that are visible at each name of a text are those that are read off the text before it,
/// that is, off its declarations and the begins and ends of its blocks.
pub fn visible_names()
    ensures { (raw : RawProgram) → read_off [] (text_marks raw) ≡ names_of raw }
{}
