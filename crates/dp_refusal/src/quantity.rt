//! The names of the limits.
ghost use Rattle.std.specs.Prelude.{◌≡◌};
ghost use Rattle.dp_refusal.specs.Refusal.{quantity_name};

use dp_base::Quantity;

/// A limit's name in messages.
pub fn quantity_name(quantity: Quantity) -> &'static str
    ensures { result.now ≡ quantity_name quantity }
{
    match quantity {
        Quantity::ProgramBytes => "program-bytes",
        Quantity::Nesting => "nesting",
        Quantity::Operators => "operators",
        Quantity::ElseIf => "else-if",
        Quantity::Functions => "functions",
        Quantity::Cells => "cells",
        Quantity::InlinedSize => "inlined-size",
        Quantity::RegionSites => "region-sites",
        Quantity::InputBytes => "input-bytes",
        Quantity::InputWords => "input-words",
        Quantity::PlanBytes => "plan-bytes",
        Quantity::ProfileBytes => "profile-bytes",
        Quantity::LogBytes => "log-bytes",
        Quantity::CheckpointBytes => "checkpoint-bytes",
        Quantity::ListBytes => "list-bytes",
    }
}
