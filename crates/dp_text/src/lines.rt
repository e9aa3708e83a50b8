//! The lines of a text, one after the other.

ghost use Rattle.std.specs.Prelude.{◌≡◌, ◌<◌, ◌≤◌, ◌∷◌, ◌++◌, ◌==◌, Bool, List, Option, ℕ, [], IfOk, IfSome, MatchOption, length};
ghost use Rattle.std.specs.List.{position};
ghost use Rattle.dp_text.specs.Lines.{lines_of, read_from, read_end};

use dp_room::NoMemory;
use std::alloc::Global;

/// What became of a text that was read line by line.
pub enum Reading<S> {
    /// It is over, with this state behind its last line.
    Over(S),
    /// A line can't stand, or the text ends where it isn't over.
    Refused { line: u64 },
}

/// Which lines may follow one another, by what is known behind them.
pub trait LineGrammar<S> {
    /// The state behind one line more, where it may stand.
    ghost next: { Self → S → List ℕ → Option S };
    /// A text may end in this state.
    ghost over: { S → Bool };

    /// What is known behind a line, which is given without its LF.
    fn after(&self, alloc: Global, state: S, line: &[u8]) -> Result<Option<S>, NoMemory>
        ensures { IfOk result (λ later. later ≡ next self.now state line.now) };

    fn is_over(&self, state: &S) -> bool
        ensures { result ≡ over state.now };
}

fn first_end(text: &[u8]) -> Option<usize>
    ensures { result ≡ position (λ byte. byte == 10) text.now }
{
    text.iter().position(|byte| *byte == b'\n')
}

/// The first line without its LF, and what follows it.
pub fn next_line(text: &[u8]) -> Option<(&[u8], &[u8])>
    ensures lines { MatchOption result (position (λ byte. byte == 10) text.now ≡ None) (λ next. lines_of text.now ≡ (next.0.now ++ 10 ∷ [])
        ∷ lines_of next.1.now) }
    ensures shorter { IfSome result (λ next. length next.1.now < length text.now) }
{
    let len = first_end(text)?;
    let (line, _) = text.split_at(len);
    let (_, rest) = text.split_at(len + 1);
    Some((line, rest))
}

/// What becomes of a text that has been read up to what has no LF.
fn ended<S: Drop, G: LineGrammar<S>>(grammar: &G, state: S, rest: &[u8], line: u64) -> Reading<S>
    ensures { result ≡ read_end G.over line state rest.now }
{
    match rest {
        [] => {
            if grammar.is_over(&state) {
                Reading::Over(state)
            } else {
                Reading::Refused { line }
            }
        }
        [_, ..] => Reading::Refused { line },
    }
}

/// Reads a text line by line, up to the first that can't stand.
pub fn read_lines<S: Drop, G: LineGrammar<S>>(
    alloc: Global,
    grammar: &G,
    start: S,
    text: &[u8],
) -> Result<Reading<S>, NoMemory>
    ensures { IfOk result (λ reading. reading ≡ read_from (G.next grammar.now) G.over 1 start (lines_of text.now)) }
{
    let mut state = start;
    let mut rest = text;
    let mut line: u64 = 1;
    'lines: loop {
        match next_line(rest) {
            None => return Ok(ended(grammar, state, rest, line)),
            Some((bytes, more)) => {
                let next = grammar.after(alloc, state, bytes)?;
                match next {
                    None => return Ok(Reading::Refused { line }),
                    Some(after) => {
                        state = after;
                        rest = more;
                        line += 1;
                    }
                }
            }
        }
    }
}
