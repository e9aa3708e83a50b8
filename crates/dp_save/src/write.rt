//! A checkpoint as a text.

ghost use Rattle.std.specs.Prelude.{◌≡◌, ◌++◌, IfOk, OnOk};
ghost use Rattle.std.specs.Fmt.{signed_decimal};
ghost use Rattle.dp_text.specs.Labels.{spaced};
ghost use Rattle.dp_save.specs.CheckpointText.{CheckpointText};
ghost use Rattle.dp_save.specs.Fits.{Fits};
ghost use Rattle.dp_save.specs.WrittenText as written;

use crate::Checkpoint;
use dp_base::{NoMemory, RegionReport, Row};
use dp_text::put_labelled;
use dp_tree::Program;
use itoa::Buffer;
use std::alloc::Global;

/// The text of a checkpoint. That of one that fits the program is a text of the program's checkpoints, and of this one alone.
pub fn write_checkpoint(alloc: Global, c: &Checkpoint, _p: &Program) -> Result<Row<u8>, NoMemory>
    ensures text { IfOk result (λ text. text ≡ written.checkpoint_bytes c.now) }
    ensures read { Fits _p.now c.now → IfOk result (λ text. CheckpointText _p.now text c.now) }
{
    let mut out = Row::new(alloc);
    out.extend_from_slice(b"checkpoint 1\n")?;
    put_place(&mut out, c)?;
    put_cells(&mut out, c.cells.as_slice())?;
    put_reports(&mut out, c.reports.as_slice())?;
    out.extend_from_slice(b"end\n")?;
    Ok(out)
}

fn put_place(out: &mut Row<u8>, c: &Checkpoint) -> Result<(), NoMemory>
    ensures { OnOk result (out.new ≡ out.old ++ written.place_text c.now) }
{
    put_labelled(out, b"region ", u64::from(c.region))?;
    put_labelled(out, b" after ", c.after)?;
    put_labelled(out, b" steps ", c.steps)?;
    put_labelled(out, b" fuel ", c.fuel)?;
    out.push(b'\n')
}

fn put_cells(out: &mut Row<u8>, cells: &[i64]) -> Result<(), NoMemory>
    ensures { OnOk result (out.new ≡ out.old ++ written.cells_text cells.now) }
{
    out.extend_from_slice(b"cells")?;
    put_values(out, cells)?;
    out.push(b'\n')
}

fn put_values(out: &mut Row<u8>, values: &[i64]) -> Result<(), NoMemory>
    ensures { OnOk result (out.new ≡ out.old ++ written.values_text values.now) }
{
    for value in values {
        put_value(out, *value)?;
    }
    Ok(())
}

#[tactic(auto, unfolding(crate::specs::WrittenText::value_text))]
fn put_value(out: &mut Row<u8>, value: i64) -> Result<(), NoMemory>
    ensures { OnOk result (out.new ≡ out.old ++ written.value_text value) }
{
    let mut digits = Buffer::new();
    out.extend_from_slice(b" ")?;
    out.extend_from_slice(digits.format(value).as_bytes())
}

fn put_reports(out: &mut Row<u8>, reports: &[RegionReport]) -> Result<(), NoMemory>
    ensures { OnOk result (out.new ≡ out.old ++ written.reports_text reports.now) }
{
    for report in reports {
        put_report(out, report)?;
    }
    Ok(())
}

fn put_report(out: &mut Row<u8>, report: &RegionReport) -> Result<(), NoMemory>
    ensures { OnOk result (out.new ≡ out.old ++ written.report_text report.now) }
{
    put_labelled(out, b"report ", u64::from(report.region))?;
    put_labelled(out, b" iterations ", report.iterations)?;
    put_labelled(out, b" recovered ", report.recovered_count)?;
    put_listed(out, report)?;
    out.push(b'\n')
}

/// A colon and the numbers, where there are any.
fn put_listed(out: &mut Row<u8>, report: &RegionReport) -> Result<(), NoMemory>
    ensures { OnOk result (out.new ≡ out.old ++ written.listed_text report.now.recovered_count report.now.recovered) }
{
    if report.recovered_count == 0 {
        return Ok(());
    }
    out.push(b':')?;
    put_numbers(out, report.recovered.as_slice())
}

fn put_numbers(out: &mut Row<u8>, numbers: &[u64]) -> Result<(), NoMemory>
    ensures { OnOk result (out.new ≡ out.old ++ spaced numbers.now) }
{
    for number in numbers {
        put_labelled(out, b" ", *number)?;
    }
    Ok(())
}
