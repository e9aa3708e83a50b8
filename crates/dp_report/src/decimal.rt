//! Numbers at the end of a text.

ghost use Rattle.std.specs.Prelude.{◌≡◌, ◌++◌, OnOk};
ghost use Rattle.std.specs.Fmt.{signed_decimal};
ghost use Rattle.dp_text.specs.Labels.{spaced};
ghost use Rattle.dp_report.specs.Lines.{labelled_signed, spaced_signed};

use dp_base::{NoMemory, Row};
use dp_text::put_labelled;
use itoa::Buffer;

pub fn put_signed(out: &mut Row<u8>, n: i64) -> Result<(), NoMemory>
    ensures { OnOk result (out.new ≡ out.old ++ signed_decimal n) }
{
    let mut text = Buffer::new();
    out.extend_from_slice(text.format(n).as_bytes())
}

/// A label, and a number right after it that may have a sign.
#[tactic(auto, unfolding(crate::specs::Lines::labelled_signed))]
pub fn put_labelled_signed(out: &mut Row<u8>, label: &[u8], n: i64) -> Result<(), NoMemory>
    ensures { OnOk result (out.new ≡ out.old ++ labelled_signed label.now n) }
{
    out.extend_from_slice(label)?;
    put_signed(out, n)
}

/// Each number behind a space.
pub fn put_spaced(out: &mut Row<u8>, numbers: &[u64]) -> Result<(), NoMemory>
    ensures { OnOk result (out.new ≡ out.old ++ spaced numbers.now) }
{
    for n in numbers {
        put_labelled(out, b" ", *n)?;
    }
    Ok(())
}

/// Each number behind a space.
pub fn put_spaced_signed(out: &mut Row<u8>, numbers: &[i64]) -> Result<(), NoMemory>
    ensures { OnOk result (out.new ≡ out.old ++ spaced_signed numbers.now) }
{
    for n in numbers {
        out.push(b' ')?;
        put_signed(out, *n)?;
    }
    Ok(())
}
