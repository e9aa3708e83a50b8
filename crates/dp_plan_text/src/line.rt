//! One line of a text.

ghost use Rattle.std.specs.Prelude.{◌≡◌, IfOk};
ghost use Rattle.std.specs.Option.{option_copied};
ghost use Rattle.dp_text.specs.Words.{words, words_behind, small_number};
ghost use Rattle.dp_plan_text.specs.steps.LineWords as spec;

use dp_base::limits::{LEAST_WORDS, MOST_WORDS};
use dp_base::{NoMemory, Row, SiteId};
use dp_plan::{StageKind, WrittenStage};
use dp_text::{next_word, number};
use dp_tree::Assume;
use std::alloc::Global;

/// A line of a text.
#[derive(Drop)]
pub enum Line {
    Head { proved: bool },
    Region { region: u32, words: u32 },
    Stage(WrittenStage),
    Assume(Assume),
    End,
}

/// The number that a word writes, where it is above another.
fn number_above(low: u32, word: &[u8]) -> Option<u32>
    ensures { result ≡ spec.above low (small_number word.now) }
{
    let site = number(word)?;
    if low < site { Some(site) } else { None }
}

/// The numbers that words write, if they ascend strictly.
fn sites(alloc: Global, text: Option<&[u8]>) -> Result<Option<Row<u32>>, NoMemory>
    ensures { IfOk result (λ sites. sites ≡ spec.sites_above 0 (words_behind (option_copied text.entry))) }
{
    let mut sites = Row::new(alloc);
    let mut last = 0;
    let mut rest = text;
    'words: while let Some(text) = rest {
        let (word, more) = next_word(text);
        let Some(site) = number_above(last, word) else {
            return Ok(None);
        };
        sites.push(site)?;
        last = site;
        rest = more;
    }
    Ok(Some(sites))
}

fn stage_of(kind: StageKind, sites: Option<Row<u32>>) -> Option<Line>
    ensures { result ≡ spec.stage_line kind sites }
{
    let sites = sites?;
    if sites.is_empty() {
        return None;
    }
    Some(Line::Stage(WrittenStage { kind, sites }))
}

fn stage(alloc: Global, kind: StageKind, text: Option<&[u8]>) -> Result<Option<Line>, NoMemory>
    ensures { IfOk result (λ read. read ≡ spec.stage_line kind (spec.sites_above 0 (words_behind (option_copied text.entry)))) }
{
    Ok(stage_of(kind, sites(alloc, text)?))
}

#[tactic(auto, using(crate::proofs::WordLemmas::region_more))]
fn region(text: Option<&[u8]>) -> Option<Line>
    ensures { result ≡ spec.region_line (words_behind (option_copied text.entry)) }
{
    let (region, rest) = next_word(text?);
    let (label, rest) = next_word(rest?);
    let (words, rest) = next_word(rest?);
    match rest {
        None => region_labelled(label, number(region), number(words)),
        Some(_) => None,
    }
}

fn region_labelled(label: &[u8], region: Option<u32>, words: Option<u32>) -> Option<Line>
    ensures { result ≡ spec.region_labelled label.now region words }
{
    if label == b"words".as_slice() {
        region_of(region, words)
    } else {
        None
    }
}

fn region_of(region: Option<u32>, words: Option<u32>) -> Option<Line>
    ensures { result ≡ spec.region_of region words }
{
    let region = region?;
    let words = words?;
    if LEAST_WORDS <= words && words <= MOST_WORDS {
        Some(Line::Region { region, words })
    } else {
        None
    }
}

fn outcome(number: Option<u32>) -> Option<bool>
    ensures { result ≡ spec.outcome number }
{
    match number? {
        0 => Some(false),
        1 => Some(true),
        _ => None,
    }
}

fn assume_of(site: Option<u32>, taken: Option<bool>) -> Option<Line>
    ensures { result ≡ spec.assume_of site taken }
{
    Some(Line::Assume(Assume {
        site: SiteId(site?),
        taken: taken?,
    }))
}

#[tactic(auto, using(crate::proofs::WordLemmas::assume_more))]
fn assume(text: Option<&[u8]>) -> Option<Line>
    ensures { result ≡ spec.assume_line (words_behind (option_copied text.entry)) }
{
    let (site, rest) = next_word(text?);
    let (taken, rest) = next_word(rest?);
    match rest {
        None => assume_of(number_above(0, site), outcome(number(taken))),
        Some(_) => None,
    }
}

fn head_of(version: &[u8]) -> Option<Line>
    ensures { result ≡ spec.head_of version.now }
{
    if version == b"1".as_slice() {
        Some(Line::Head { proved: false })
    } else if version == b"2".as_slice() {
        Some(Line::Head { proved: true })
    } else {
        None
    }
}

#[tactic(auto, using(crate::proofs::WordLemmas::head_more))]
fn head(text: Option<&[u8]>) -> Option<Line>
    ensures { result ≡ spec.head_line (words_behind (option_copied text.entry)) }
{
    let (version, rest) = next_word(text?);
    match rest {
        None => head_of(version),
        Some(_) => None,
    }
}

#[tactic(auto, using(crate::proofs::WordLemmas::end_more))]
fn end(text: Option<&[u8]>) -> Option<Line>
    ensures { result ≡ spec.end_line (words_behind (option_copied text.entry)) }
{
    match text {
        None => Some(Line::End),
        Some(_) => None,
    }
}

/// The line that a text without its LF is, if it is one.
#[tactic(auto, unfolding(crate::specs::steps::LineWords::line_of))]
pub fn read_line(alloc: Global, text: &[u8]) -> Result<Option<Line>, NoMemory>
    ensures { IfOk result (λ read. read ≡ spec.line_of (words text.now)) }
{
    let (label, rest) = next_word(text);
    if label == b"seq".as_slice() {
        stage(alloc, StageKind::Seq, rest)
    } else if label == b"par".as_slice() {
        stage(alloc, StageKind::Par, rest)
    } else if label == b"assume".as_slice() {
        Ok(assume(rest))
    } else if label == b"region".as_slice() {
        Ok(region(rest))
    } else if label == b"plan".as_slice() {
        Ok(head(rest))
    } else if label == b"end".as_slice() {
        Ok(end(rest))
    } else {
        Ok(None)
    }
}
