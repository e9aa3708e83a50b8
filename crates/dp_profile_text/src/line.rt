//! One line of a text.

ghost use Rattle.std.specs.Prelude.{◌≡◌};
ghost use Rattle.std.specs.Option.{option_copied};
ghost use Rattle.dp_text.specs.Words.{words, words_behind};
ghost use Rattle.dp_profile_text.specs.steps.LineWords as spec;

use dp_base::SiteId;
use dp_base::limits::PROFILE_COUNT;
use dp_profile::{Flow, SiteCount};
use dp_text::{next_word, number, number_upto};

/// A line of a text.
#[derive(Clone, Copy)]
pub enum Line {
    Head,
    Region(u32),
    Runs(SiteId, SiteCount),
    Flow(Flow),
    End,
}

/// A count.
fn count(word: &[u8]) -> Option<u64>
    ensures { result ≡ spec.count word.now }
{
    number_upto(PROFILE_COUNT, word)
}

fn region_of(region: Option<u32>) -> Option<Line>
    ensures { result ≡ spec.region_of region }
{
    Some(Line::Region(region?))
}

#[tactic(auto, using(crate::proofs::WordLemmas::region_more))]
fn region(text: Option<&[u8]>) -> Option<Line>
    ensures { result ≡ spec.region_line (words_behind (option_copied text.entry)) }
{
    let (region, rest) = next_word(text?);
    match rest {
        None => region_of(number(region)),
        Some(_) => None,
    }
}

fn runs_of(site: Option<u32>, runs: Option<u64>, nonzero: Option<u64>) -> Option<Line>
    ensures { result ≡ spec.runs_of site runs nonzero }
{
    let site = SiteId(site?);
    let runs = runs?;
    let nonzero = nonzero?;
    if nonzero <= runs {
        Some(Line::Runs(site, SiteCount { runs, nonzero }))
    } else {
        None
    }
}

#[tactic(auto, using(crate::proofs::WordLemmas::runs_more))]
fn runs(text: Option<&[u8]>) -> Option<Line>
    ensures { result ≡ spec.runs_line (words_behind (option_copied text.entry)) }
{
    let (site, rest) = next_word(text?);
    let (runs, rest) = next_word(rest?);
    let (nonzero, rest) = next_word(rest?);
    match rest {
        None => runs_of(number(site), count(runs), count(nonzero)),
        Some(_) => None,
    }
}

/// Whether the word says that the store was of an earlier iteration.
fn kind(word: &[u8]) -> Option<bool>
    ensures { result ≡ spec.kind word.now }
{
    if word == b"intra".as_slice() {
        Some(false)
    } else if word == b"carried".as_slice() {
        Some(true)
    } else {
        None
    }
}

fn flow_of(
    from: Option<u32>,
    to: Option<u32>,
    carried: Option<bool>,
    shown: Option<u64>,
) -> Option<Line>
    ensures { result ≡ spec.flow_of from to carried shown }
{
    let from = SiteId(from?);
    let to = SiteId(to?);
    let carried = carried?;
    let shown = shown?;
    if 0 < shown {
        Some(Line::Flow(Flow {
            from,
            to,
            carried,
            shown,
        }))
    } else {
        None
    }
}

#[tactic(auto, using(crate::proofs::WordLemmas::flow_more))]
fn flow(text: Option<&[u8]>) -> Option<Line>
    ensures { result ≡ spec.flow_line (words_behind (option_copied text.entry)) }
{
    let (from, rest) = next_word(text?);
    let (to, rest) = next_word(rest?);
    let (carried, rest) = next_word(rest?);
    let (shown, rest) = next_word(rest?);
    match rest {
        None => flow_of(number(from), number(to), kind(carried), count(shown)),
        Some(_) => None,
    }
}

fn head_of(version: &[u8]) -> Option<Line>
    ensures { result ≡ spec.head_of version.now }
{
    if version == b"1".as_slice() {
        Some(Line::Head)
    } else {
        None
    }
}

#[tactic(auto, using(crate::proofs::WordLemmas::head_more))]
fn head(text: Option<&[u8]>) -> Option<Line>
    ensures { result ≡ spec.head_line (words_behind (option_copied text.entry)) }
{
    let (version, rest) = next_word(text?);
    match rest {
        None => head_of(version),
        Some(_) => None,
    }
}

#[tactic(auto, using(crate::proofs::WordLemmas::end_more))]
fn end(text: Option<&[u8]>) -> Option<Line>
    ensures { result ≡ spec.end_line (words_behind (option_copied text.entry)) }
{
    match text {
        None => Some(Line::End),
        Some(_) => None,
    }
}

/// The line that a text without its LF is, if it is one.
#[tactic(auto, unfolding(crate::specs::steps::LineWords::line_of))]
pub fn read_line(text: &[u8]) -> Option<Line>
    ensures { result ≡ spec.line_of (words text.now) }
{
    let (label, rest) = next_word(text);
    if label == b"flow".as_slice() {
        flow(rest)
    } else if label == b"runs".as_slice() {
        runs(rest)
    } else if label == b"region".as_slice() {
        region(rest)
    } else if label == b"profile".as_slice() {
        head(rest)
    } else if label == b"end".as_slice() {
        end(rest)
    } else {
        None
    }
}
