//! One line of a text.

ghost use Rattle.std.specs.Prelude.{◌≡◌, IfOk};
ghost use Rattle.std.specs.Option.{option_copied};
ghost use Rattle.dp_text.specs.Words.{words_behind};
ghost use Rattle.dp_save.specs.steps.LineWords as spec;

use dp_base::limits::FUEL;
use dp_base::{NoMemory, Row};
use dp_text::{next_word, number, number_upto};
use std::alloc::Global;

/// Where a run was saved.
#[derive(Clone, Copy)]
pub struct Place {
    pub region: u32,
    pub after: u64,
    pub steps: u64,
    pub fuel: u64,
}

/// A count of steps or iterations.
pub fn count(word: &[u8]) -> Option<u64>
    ensures { result ≡ spec.count word.now }
{
    number_upto(u64::from(FUEL), word)
}

fn are_labels(after: &[u8], steps: &[u8], fuel: &[u8]) -> bool
    ensures { result ≡ spec.are_labels after.now steps.now fuel.now }
{
    after == b"after".as_slice() && steps == b"steps".as_slice() && fuel == b"fuel".as_slice()
}

fn place_from(
    region: Option<u32>,
    after: Option<u64>,
    steps: Option<u64>,
    fuel: Option<u64>,
) -> Option<Place>
    ensures { result ≡ spec.place_from region after steps fuel }
{
    Some(Place {
        region: region?,
        after: after?,
        steps: steps?,
        fuel: fuel?,
    })
}

/// The place that these words say.
#[tactic(auto, using(crate::proofs::WordLemmas::place_more))]
pub fn read_place(text: Option<&[u8]>) -> Option<Place>
    ensures { result ≡ spec.place_of (words_behind (option_copied text.entry)) }
{
    let (region, rest) = next_word(text?);
    let (after_label, rest) = next_word(rest?);
    let (after, rest) = next_word(rest?);
    let (steps_label, rest) = next_word(rest?);
    let (steps, rest) = next_word(rest?);
    let (fuel_label, rest) = next_word(rest?);
    let (fuel, rest) = next_word(rest?);
    if rest.is_some() || !are_labels(after_label, steps_label, fuel_label) {
        return None;
    }
    place_from(number(region), count(after), count(steps), count(fuel))
}

/// The value of a word.
fn value(word: &[u8]) -> Option<i64>
    ensures { result ≡ spec.value_of word.now }
{
    match word {
        [b'-', digits @ ..] => 0i64.checked_sub_unsigned(number_upto(u64::MAX, digits)?),
        _ => 0i64.checked_add_unsigned(number_upto(u64::MAX, word)?),
    }
}

/// The values of a memory.
pub fn read_values(alloc: Global, text: Option<&[u8]>) -> Result<Option<Row<i64>>, NoMemory>
    ensures { IfOk result (λ values. values ≡ spec.each_read spec.value_of (words_behind (option_copied text.entry))) }
{
    let mut values = Row::new(alloc);
    let mut rest = text;
    'words: while let Some(text) = rest {
        let (word, more) = next_word(text);
        let Some(value) = value(word) else {
            return Ok(None);
        };
        values.push(value)?;
        rest = more;
    }
    Ok(Some(values))
}

/// Whether these words are the version alone.
#[tactic(auto, using(crate::proofs::WordLemmas::version_more))]
pub fn is_version(text: Option<&[u8]>) -> bool
    ensures { result ≡ spec.is_version (words_behind (option_copied text.entry)) }
{
    match text {
        None => false,
        Some(text) => {
            let (version, rest) = next_word(text);
            match rest {
                None => version == b"1".as_slice(),
                Some(_) => false,
            }
        }
    }
}
