//! Why iterations were executed again.

ghost use Rattle.std.specs.Prelude.{◌≡◌, ◌++◌, OnOk};
ghost use Rattle.dp_report.specs.CauseText.{cause_line, cause_words, causes_bytes};

use crate::decimal::put_labelled_signed;
use crate::fault::put_fault;
use dp_base::{Cause, NoMemory, Row};
use dp_text::put_labelled;

/// A line for each of these iterations, with its cause.
pub fn put_causes(out: &mut Row<u8>, iterations: &[u64], causes: &[Cause]) -> Result<(), NoMemory>
    ensures { OnOk result (out.new ≡ out.old ++ causes_bytes iterations.now causes.now) }
{
    for (place, iteration) in iterations.iter().enumerate() {
        if let Some(cause) = causes.get(place) {
            put_cause(out, *iteration, *cause)?;
        }
    }
    Ok(())
}

fn put_cause(out: &mut Row<u8>, iteration: u64, cause: Cause) -> Result<(), NoMemory>
    ensures { OnOk result (out.new ≡ out.old ++ cause_line iteration cause) }
{
    put_labelled(out, b"cause ", iteration)?;
    put_words(out, cause)?;
    out.push(b'\n')
}

#[tactic(auto, unfolding(crate::specs::CauseText::cause_words))]
fn put_words(out: &mut Row<u8>, cause: Cause) -> Result<(), NoMemory>
    ensures { OnOk result (out.new ≡ out.old ++ cause_words cause) }
{
    match cause {
        Cause::Load {
            site,
            cell,
            seen,
            source,
        } => {
            put_labelled(out, b" load site ", u64::from(site.0))?;
            put_labelled(out, b" cell ", u64::from(cell.0))?;
            put_labelled_signed(out, b" seen ", seen)?;
            put_labelled_signed(out, b" source ", source)
        }
        Cause::Assumed { site } => put_labelled(out, b" assume site ", u64::from(site.0)),
        Cause::Words { stage, site } => {
            put_labelled(out, b" words stage ", u64::from(stage))?;
            put_labelled(out, b" site ", u64::from(site.0))
        }
        Cause::Fault(fault) => put_fault(out, fault),
        Cause::Fuel => out.extend_from_slice(b" fuel"),
    }
}
