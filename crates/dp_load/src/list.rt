//! A list of the names of inputs, and the inputs.
ghost use Rattle.std.specs.Prelude.{◌≡◌, ◌<◌, ◌≤◌, ◌-◌, ◌^◌, length, All, IsUtf8, Err, IfOk, OnErr};
ghost use Rattle.std.specs.Option.{option_map};
ghost use Rattle.dp_load.specs.Loading.{FaultsAfterLoad, Loads, names_after};
ghost use Rattle.dp_load.specs.Lists as spec;
ghost use Rattle.dp_load.specs.Lists.{LoadsList, ReadsList};
ghost use Rattle.dp_load.specs.steps.Each.{LoadsEach};

use crate::batch::Listed;
use crate::load::{Loaded, load_input};
use dp_base::limits::LIST_BYTES;
use dp_base::{NoMemory, Quantity, Row};
use dp_edge::{Shelf, ShelfFail};
use dp_list::{ListFail, name_text, read_list};
use dp_refusal::{Refusal, Role};
use std::alloc::Global;

/// The names of the list under a name.
#[tactic(auto, using(crate::proofs::BehindLemmas::list_texts))]
pub fn load_list<S: Shelf>(
    alloc: Global,
    shelf: &mut S,
    name: &str,
) -> Result<Loaded<Row<Row<u8>>>, NoMemory>
    requires { S.faults shelf.old < 2 ^ 64 - 1 }
    ensures contents { S.contents shelf.new ≡ S.contents shelf.old }
    ensures faults { FaultsAfterLoad result (S.faults shelf.old) (S.faults shelf.new) }
    ensures failed_names { S.failed_names shelf.new ≡ option_map (names_after result name.now) (S.failed_names shelf.old) }
    ensures loads { IfOk result (Loads (LoadsList (S.contents shelf.old) name.now)) }
{
    match shelf.read(alloc, name, LIST_BYTES) {
        Ok(text) => match names(alloc, text.as_slice())? {
            Ok(names) => Ok(Loaded::Text(names)),
            Err(refusal) => Ok(Loaded::Refused(refusal)),
        },
        Err(ShelfFail::Failed) => Ok(Loaded::Failed),
        Err(ShelfFail::TooLong) => Ok(Loaded::Refused(Refusal::Limit(
            Quantity::ListBytes,
            LIST_BYTES + 1,
        ))),
        Err(ShelfFail::NoMemory) => Err(NoMemory),
    }
}

/// The names of a list's text, or why it is refused.
#[tactic(auto, using(crate::proofs::BehindLemmas::list_texts))]
fn names(alloc: Global, text: &[u8]) -> Result<Result<Row<Row<u8>>, Refusal>, NoMemory>
    requires { length text.now ≤ 16384 }
    ensures { IfOk result (ReadsList text.now) }
{
    match read_list(alloc, text) {
        Ok(names) => Ok(Ok(names)),
        Err(ListFail::Refused { line }) => Ok(Err(Refusal::ListLine(line))),
        Err(ListFail::NoMemory) => Err(NoMemory),
    }
}

/// The inputs of these names, in turn.
pub fn load_each<S: Shelf>(
    alloc: Global,
    shelf: &mut S,
    names: &[Row<u8>],
) -> Result<Listed, NoMemory>
    requires shelf { S.faults shelf.old < 2 ^ 64 - 1 }
    requires few { length names.now ≤ 64 }
    requires texts { All IsUtf8 names.now }
    ensures contents { S.contents shelf.new ≡ S.contents shelf.old }
    ensures loads { IfOk result (LoadsEach (S.contents shelf.old) names.now (S.faults shelf.old) (S.faults shelf.new) (S.failed_names shelf.old)
        (S.failed_names shelf.new)) }
    ensures err { OnErr result ((S.faults shelf.new ≡ S.faults shelf.old) × (S.failed_names shelf.new ≡ S.failed_names shelf.old)) }
{
    let mut inputs = Row::new(alloc);
    for name in names {
        let number = inputs.len() as u32 + 1;
        match load_input(alloc, shelf, name_text(name.as_slice()))? {
            Loaded::Text(numbers) => inputs.push(numbers)?,
            Loaded::Refused(refusal) => return Ok(Listed::Refused(in_list(number, refusal))),
            Loaded::Failed => return Ok(Listed::Failed(Role::Input)),
        }
    }
    Ok(Listed::Inputs(inputs))
}

/// The refusal of the input with this number in a list.
fn in_list(number: u32, refusal: Refusal) -> Refusal
    ensures { spec.in_list number (Err refusal) ≡ Err result }
{
    match refusal {
        Refusal::InputWord(word) => Refusal::BatchWord {
            input: number,
            word,
        },
        other => other,
    }
}
