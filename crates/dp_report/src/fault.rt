//! A fault in a text.

ghost use Rattle.std.specs.Prelude.{◌≡◌, ◌++◌, OnOk};
ghost use Rattle.dp_report.specs.Faults.{fault_name, fault_words};

use dp_base::{Fault, FaultKind, NoMemory, Row};
use dp_text::put_labelled;

/// A fault's name and line.
#[tactic(auto, unfolding(crate::specs::Faults::fault_words))]
pub fn put_fault(out: &mut Row<u8>, fault: Fault) -> Result<(), NoMemory>
    ensures { OnOk result (out.new ≡ out.old ++ fault_words fault) }
{
    out.extend_from_slice(b" fault ")?;
    out.extend_from_slice(fault_name(fault.kind))?;
    put_labelled(out, b" line ", u64::from(fault.line))
}

fn fault_name(kind: FaultKind) -> &'static [u8]
    ensures { result.now ≡ fault_name kind }
{
    match kind {
        FaultKind::Overflow => b"overflow",
        FaultKind::Divide => b"divide",
        FaultKind::Index => b"index",
    }
}
