//! The lines of a log.
ghost use Rattle.std.specs.Prelude.{◌≡◌, ◌++◌, OnOk};
ghost use Rattle.std.specs.Fmt.{signed_decimal};
ghost use Rattle.std.specs.List.{flat_map};
ghost use Rattle.dp_report.specs.Lines.{labelled_signed};
ghost use Rattle.dp_log.specs.LogText.{closed_line, first_line, group_bytes, iteration_line, logged_print, region_line, set_line};

use crate::SetOf;
use dp_base::{NoMemory, Row};
use dp_text::put_labelled;
use itoa::Buffer;

/// The first line of a log. It goes, as all lines here, behind what `out` has.
pub fn put_first(out: &mut Row<u8>) -> Result<(), NoMemory>
    ensures { OnOk result (out.new ≡ out.old ++ first_line) }
{
    out.extend_from_slice(b"log 1\n")
}

/// The first line of a region.
pub fn put_region(out: &mut Row<u8>, region: u32) -> Result<(), NoMemory>
    ensures { OnOk result (out.new ≡ out.old ++ region_line region) }
{
    put_labelled(out, b"region ", u64::from(region))?;
    out.push(b'\n')
}

/// The line behind the iteration that left the region.
pub fn put_closed(out: &mut Row<u8>, region: u32) -> Result<(), NoMemory>
    ensures { OnOk result (out.new ≡ out.old ++ closed_line region) }
{
    put_labelled(out, b"closed ", u64::from(region))?;
    out.push(b'\n')
}

/// The lines of an iteration: whether it was executed again, the cells that it changed, and its prints.
pub fn put_group(
    out: &mut Row<u8>,
    iteration: u64,
    again: bool,
    sets: &[SetOf],
    prints: &[i64],
) -> Result<(), NoMemory>
    ensures { OnOk result (out.new ≡ out.old ++ group_bytes iteration again sets.now prints.now) }
{
    put_iteration(out, iteration, again)?;
    put_sets(out, sets)?;
    put_prints(out, prints)
}

fn put_iteration(out: &mut Row<u8>, iteration: u64, again: bool) -> Result<(), NoMemory>
    ensures { OnOk result (out.new ≡ out.old ++ iteration_line iteration again) }
{
    if again {
        put_labelled(out, b"again ", iteration)?;
    } else {
        put_labelled(out, b"commit ", iteration)?;
    }
    out.push(b'\n')
}

fn put_sets(out: &mut Row<u8>, sets: &[SetOf]) -> Result<(), NoMemory>
    ensures { OnOk result (out.new ≡ out.old ++ flat_map set_line sets.now) }
{
    for set in sets {
        put_set(out, *set)?;
    }
    Ok(())
}

fn put_set(out: &mut Row<u8>, set: SetOf) -> Result<(), NoMemory>
    ensures { OnOk result (out.new ≡ out.old ++ set_line set) }
{
    put_labelled(out, b"set ", u64::from(set.cell.0))?;
    put_labelled_signed(out, b" ", set.value)?;
    out.push(b'\n')
}

fn put_prints(out: &mut Row<u8>, prints: &[i64]) -> Result<(), NoMemory>
    ensures { OnOk result (out.new ≡ out.old ++ flat_map logged_print prints.now) }
{
    for value in prints {
        put_print(out, *value)?;
    }
    Ok(())
}

fn put_print(out: &mut Row<u8>, value: i64) -> Result<(), NoMemory>
    ensures { OnOk result (out.new ≡ out.old ++ logged_print value) }
{
    put_labelled_signed(out, b"print ", value)?;
    out.push(b'\n')
}

/// A label, and a number right after it that may have a sign.
#[tactic(auto, unfolding(dp_report::specs::Lines::labelled_signed))]
fn put_labelled_signed(out: &mut Row<u8>, label: &[u8], value: i64) -> Result<(), NoMemory>
    ensures { OnOk result (out.new ≡ out.old ++ labelled_signed label.now value) }
{
    out.extend_from_slice(label)?;
    put_signed(out, value)
}

fn put_signed(out: &mut Row<u8>, value: i64) -> Result<(), NoMemory>
    ensures { OnOk result (out.new ≡ out.old ++ signed_decimal value) }
{
    let mut digits = Buffer::new();
    out.extend_from_slice(digits.format(value).as_bytes())
}
