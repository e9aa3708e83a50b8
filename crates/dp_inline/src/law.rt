ghost use Rattle.std.specs.Prelude.{◌≡◌, length};
ghost use Rattle.dp_tree.specs.Checked.{IsChecked};
ghost use Rattle.dp_calls.specs.Expand.{expand};
ghost use Rattle.dp_inline.specs.Size.{site_total};

use dp_tree::Program;

/// What is read off a program with its calls, where a call itself counts nothing, is the number of sites of the expanded
/// program.
pub fn sizes_count_sites(p: &Program)
    requires { IsChecked p.now }
    ensures { length (expand p.now).sites ≡ site_total p.now }
{}
