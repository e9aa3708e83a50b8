//! What comes next in a program, and how a call that runs a part of it ends.
ghost use Rattle.std.specs.Prelude.{◌≡◌};
ghost use Rattle.dp_meaning.specs.steps.Stretch.{end_of_part};

use dp_base::Fault;

/// What comes next at the top level of `main`.
#[derive(Clone, Copy, PartialEq, Eq)]
pub enum Part {
    /// Statements up to the next region or the end.
    Plain,
    /// An iteration of the region with this number.
    Region(u32),
    /// Nothing.
    Finished,
}

/// Why [`crate::Machine::run_part`] stopped.
#[derive(Clone, Copy)]
pub enum PartEnd {
    /// No site of the part is left.
    Done,
    /// The next evaluation faults.
    Fault(Fault),
    /// The fuel is spent.
    Fuel,
    /// As many steps were made as the call was to make.
    Going,
}

/// Why [`crate::Machine::iterate`] stopped.
#[derive(Clone, Copy)]
pub enum IterEnd {
    /// The iteration has ended, and the region's condition comes next.
    Next,
    /// The iteration has left the region: its condition gave 0, or a break was taken.
    Closed,
    /// The next evaluation faults.
    Fault(Fault),
    /// The fuel is spent.
    Fuel,
    /// As many steps were made as the call was to make.
    Going,
}

impl IterEnd {
    /// How a plain part ends that stops so.
    pub(crate) fn of_part(self) -> PartEnd
        ensures { result ≡ end_of_part self }
    {
        match self {
            IterEnd::Next => PartEnd::Done,
            IterEnd::Closed => PartEnd::Done,
            IterEnd::Fault(fault) => PartEnd::Fault(fault),
            IterEnd::Fuel => PartEnd::Fuel,
            IterEnd::Going => PartEnd::Going,
        }
    }
}
