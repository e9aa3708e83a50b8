//! The rule of the flag's word: what it says, and what the passes know of it.

use atomic_table::Split;
use crossbeam_utils::rule::{Outcome, Protocol};

/// What a pass knows of the flag. No value of it is made.
pub enum View {
    /// It is the one pass that sets the flag, and `set` says whether it has.
    Setter { set: bool },
    /// It has loaded the flag this many times, and `seen` says whether a load found it set.
    Seat { loads: u64, seen: bool },
    /// It takes no part.
    Spent,
}

/// The word is 1 exactly where the setter has set the flag.
pub struct StopRule;

impl Protocol<[u64; 1], View> for StopRule {
    ghost use Rattle.std.specs.Prelude.{false};
    ghost use Rattle.dp_stop.specs.Stops.{IsStopWord};
    ghost use Rattle.dp_stop.specs.declared.rule.View.TheVariants.{Setter};

    ghost holds = { IsStopWord };

    ghost first = { Setter false };
}

/// Makes a new seat.
pub(crate) struct Seats;

impl Split<View> for Seats {
    ghost use Rattle.std.specs.Prelude.{false};
    ghost use Rattle.dp_stop.specs.declared.rule.View.TheVariants.{Seat};

    ghost left = { λ v. v };

    ghost right = { λ _. Seat 0 false };
}

/// The flag was set.
pub(crate) struct Sets;

impl Outcome<[u64; 1], View> for Sets {
    ghost use Rattle.std.specs.Prelude.{◌≡◌, true};
    ghost use Rattle.dp_stop.specs.declared.rule.View.TheVariants.{Setter};

    ghost then = { λ _ _ _ w. w ≡ Setter true };
}

/// The flag was loaded.
pub(crate) struct Looks;

impl Outcome<[u64; 1], View> for Looks {
    ghost use Rattle.dp_stop.specs.Stops.{LoadsFlag};

    ghost then = { λ v x _ w. LoadsFlag v x w };
}
