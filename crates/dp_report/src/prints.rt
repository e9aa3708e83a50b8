//! What a program prints.

ghost use Rattle.std.specs.Prelude.{◌≡◌, ◌++◌, OnOk, IfOk};
ghost use Rattle.dp_report.specs.PrintsText.{print_line, prints_bytes};

use crate::decimal::put_signed;
use dp_base::{NoMemory, Row};
use std::alloc::Global;

/// One line per print: the number in decimal.
pub fn prints_text(alloc: Global, prints: &[i64]) -> Result<Row<u8>, NoMemory>
    ensures { IfOk result (λ text. text ≡ prints_bytes prints.now) }
{
    let mut out = Row::new(alloc);
    for n in prints {
        put_print(&mut out, *n)?;
    }
    Ok(out)
}

fn put_print(out: &mut Row<u8>, n: i64) -> Result<(), NoMemory>
    ensures { OnOk result (out.new ≡ out.old ++ print_line n) }
{
    put_signed(out, n)?;
    out.push(b'\n')
}
