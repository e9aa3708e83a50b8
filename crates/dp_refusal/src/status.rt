//! The exit status of a run that was made.
ghost use Rattle.std.specs.Prelude.{◌≡◌};
ghost use Rattle.dp_refusal.specs.Refusal.{exit_status};

use dp_base::End;

/// The exit status of a run that ended so.
pub fn end_status(end: End) -> u8
    ensures { result ≡ exit_status end }
{
    match end {
        End::Done => 0,
        End::Fault(_) => 1,
        End::Fuel => 8,
    }
}
