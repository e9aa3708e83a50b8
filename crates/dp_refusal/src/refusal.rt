//! Why nothing is run, and the line that says so.
ghost use Rattle.std.specs.Prelude.{◌≡◌, IfOk, codes, string_bytes};
ghost use Rattle.dp_refusal.specs.Refusal.{refused_at, refused_between, limit_line, name_line};

use crate::offence::Offence;
use crate::quantity::quantity_name;
use dp_base::{NoMemory, Quantity};
use std::alloc::Global;

/// Why nothing is run. Each refusal has a status and a line of its own.
#[derive(Clone, Copy)]
pub enum Refusal {
    /// The words aren't taken.
    Words,
    /// No token begins at this place of the program's text, counted in bytes from 0.
    Byte(u32),
    /// No program's tokens begin with those up to this one, counted from 0; or the text ends too soon, and it has so many tokens.
    Syntax(u32),
    /// A name offends, on this line.
    Name(Offence, u32),
    /// This word of the input, from 1, is no number.
    InputWord(u32),
    /// No list's text begins with the lines up to this one, from 1.
    ListLine(u32),
    /// This word of that input of a list, both from 1, is no number.
    BatchWord { input: u32, word: u32 },
    /// No plans' text begins with the lines up to this one, from 1.
    PlanLine(u64),
    /// The plans break this rule, at this site.
    PlanRule { rule: u32, site: u32 },
    /// No profile's text begins with the lines up to this one, from 1.
    ProfileLine(u64),
    /// No checkpoint's text begins with the lines up to this one, from 1.
    CheckpointLine(u32),
    /// A count is above its limit.
    Limit(Quantity, u32),
}

impl Refusal {
    ghost use Rattle.dp_refusal.specs.Refusal.{refusal_line, refusal_status};

    /// The exit status.
    pub fn status(self) -> u8
        ensures { result ≡ refusal_status self }
    {
        match self {
            Refusal::Words => 2,
            Refusal::Byte(_) | Refusal::Syntax(_) | Refusal::Name(_, _) => 3,
            Refusal::InputWord(_)
            | Refusal::ListLine(_)
            | Refusal::BatchWord { .. }
            | Refusal::PlanLine(_)
            | Refusal::PlanRule { .. }
            | Refusal::ProfileLine(_)
            | Refusal::CheckpointLine(_) => 4,
            Refusal::Limit(_, _) => 9,
        }
    }

    /// The line that is written.
    pub fn line(self, alloc: Global) -> Result<String, NoMemory>
        ensures { IfOk result (λ text. string_bytes text ≡ refusal_line self) }
    {
        match self {
            Refusal::Words => words_line(alloc),
            Refusal::Byte(place) => line_at(alloc, "program byte", place.into()),
            Refusal::Syntax(token) => line_at(alloc, "program syntax token", token.into()),
            Refusal::Name(offence, line) => line_on_name(alloc, offence, line),
            Refusal::InputWord(word) => line_at(alloc, "input word", word.into()),
            Refusal::ListLine(line) => line_at(alloc, "list line", line.into()),
            Refusal::BatchWord { input, word } => {
                line_between(alloc, "batch input", input, "word", word)
            }
            Refusal::PlanLine(line) => line_at(alloc, "plan line", line),
            Refusal::PlanRule { rule, site } => {
                line_between(alloc, "plan rule", rule, "site", site)
            }
            Refusal::ProfileLine(line) => line_at(alloc, "profile line", line),
            Refusal::CheckpointLine(line) => line_at(alloc, "checkpoint line", line.into()),
            Refusal::Limit(quantity, count) => line_on_limit(alloc, quantity, count),
        }
    }
}

fn words_line(alloc: Global) -> Result<String, NoMemory>
    ensures { IfOk result (λ text. string_bytes text ≡ codes "refused words\n") }
{
    let text = format!(in alloc; "refused words\n")?;
    Ok(text)
}

/// The line of a refusal that is told by one number.
fn line_at(alloc: Global, what: &str, number: u64) -> Result<String, NoMemory>
    ensures { IfOk result (λ text. string_bytes text ≡ refused_at what.now number) }
{
    let text = format!(in alloc; "refused {what} {number}\n")?;
    Ok(text)
}

/// .. and by two.
fn line_between(
    alloc: Global,
    what: &str,
    number: u32,
    within: &str,
    other: u32,
) -> Result<String, NoMemory>
    ensures { IfOk result (λ text. string_bytes text ≡ refused_between what.now number within.now other) }
{
    let text = format!(in alloc; "refused {what} {number} {within} {other}\n")?;
    Ok(text)
}

fn line_on_name(alloc: Global, offence: Offence, line: u32) -> Result<String, NoMemory>
    ensures { IfOk result (λ text. string_bytes text ≡ name_line offence line) }
{
    let kind = offence.name();
    let text = format!(in alloc; "refused program {kind} line {line}\n")?;
    Ok(text)
}

fn line_on_limit(alloc: Global, quantity: Quantity, count: u32) -> Result<String, NoMemory>
    ensures { IfOk result (λ text. string_bytes text ≡ limit_line quantity count) }
{
    let name = quantity_name(quantity);
    let text = format!(in alloc; "limit {name} {count}\n")?;
    Ok(text)
}
