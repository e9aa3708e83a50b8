//! The texts of a case, from its table's pattern.
use dp_base::NoMemory;
use std::alloc::Global;

/// The two sides of the first mark of its kind.
pub fn cut<'t>(text: &'t str, mark: &str) -> (&'t str, &'t str) {
    text.split_once(mark).unwrap_or((text, ""))
}

/// The text with the parts of a case in their places.
pub fn filled(alloc: Global, text: &str, parts: &str) -> Result<String, NoMemory> {
    let (first, rest) = cut(parts, " | ");
    let (second, third) = cut(rest, " | ");
    let text = text.replace(alloc, "$1", first)?;
    let text = text.replace(alloc, "$2", second)?;
    let text = text.replace(alloc, "$3", third)?;
    repeated(alloc, &text)
}

/// The text with its parts between backticks so many times.
pub fn repeated(alloc: Global, text: &str) -> Result<String, NoMemory> {
    let mut out = String::new(alloc);
    let mut inside = false;
    for part in text.split('`') {
        let (count, piece) = cut(part, "*");
        if inside {
            for number in 0..count.parse::<u32>().unwrap_or(0) {
                push_numbered(alloc, &mut out, piece, number)?;
            }
        } else {
            out.push_str(part)?;
        }
        inside = !inside;
    }
    Ok(out)
}

/// One more of a text that is repeated.
fn push_numbered(
    alloc: Global,
    out: &mut String,
    piece: &str,
    number: u32,
) -> Result<(), NoMemory> {
    let from_0 = format!(in alloc; "{number}")?;
    let next = number as u64 + 1;
    let from_1 = format!(in alloc; "{next}")?;
    let piece = piece.replace(alloc, '@', &from_0)?;
    let piece = piece.replace(alloc, '^', &from_1)?;
    out.push_str(&piece)?;
    Ok(())
}
