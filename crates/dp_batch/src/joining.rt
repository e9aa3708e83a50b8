//! The texts of runs, one behind the other.
ghost use Rattle.std.specs.Prelude.{◌≡◌, ◌++◌, ℤ, ℕ, List, IfOk, IsOkAnd, OnOk};
ghost use Rattle.dp_batch.specs.BatchText.{AreTexts, input_line, texts_from};

use dp_base::{NoMemory, Row};
use dp_text::put_labelled;
use std::alloc::Global;

/// The text of a run, or want of memory.
pub(crate) type Text = Result<Row<u8>, NoMemory>;

/// The texts, each behind the number of its input, which counts from 1.
pub(crate) fn joined(alloc: Global, texts: &[Text]) -> Result<Row<u8>, NoMemory>
    ensures { (text : List ℤ → List ℕ) (inputs : List (List ℤ)) → AreTexts text inputs texts.now → IfOk result (λ bytes. bytes ≡ texts_from text 1 inputs) }
{
    let mut out = Row::new(alloc);
    'texts: for (place, text) in texts.iter().enumerate() {
        put_text(&mut out, place as u64 + 1, text)?;
    }
    Ok(out)
}

/// The text of the input with this number.
fn put_text(out: &mut Row<u8>, number: u64, text: &Text) -> Result<(), NoMemory>
    ensures { OnOk result (IsOkAnd text.now (λ bytes. out.new ≡ out.old ++ (input_line number ++ bytes))) }
{
    match text {
        Ok(bytes) => {
            put_labelled(out, b"input ", number)?;
            out.extend_from_slice(b"\n")?;
            out.extend_from_slice(bytes.as_slice())
        }
        Err(_) => Err(NoMemory),
    }
}
