//! The line of a report.

ghost use Rattle.std.specs.Prelude.{◌≡◌, IfOk, MatchOption, None};
ghost use Rattle.std.specs.Option.{option_copied};
ghost use Rattle.dp_text.specs.Words.{words_behind};
ghost use Rattle.dp_save.specs.steps.LineWords as spec;

use crate::line::count;
use dp_base::limits::LISTED;
use dp_base::{NoMemory, RegionReport, Row};
use dp_text::{next_word, number};
use std::alloc::Global;

/// The words of a report, and the text of the numbers that it lists.
#[derive(Clone, Copy)]
struct ReportWords<'t> {
    region: &'t [u8],
    iterations: &'t [u8],
    again: &'t [u8],
    numbers: Option<&'t [u8]>,
}

/// The numbers ascend strictly, and are below `high`.
fn ascend(numbers: &[u64], high: u64) -> bool
    ensures { result ≡ spec.ascends 0 high numbers.now }
{
    let mut low = 0;
    for number in numbers {
        if *number < low || high <= *number {
            return false;
        }
        low = *number + 1;
    }
    true
}

/// The report's counts fit each other and the numbers that are listed.
fn counts_fit(report: &RegionReport) -> bool
    ensures { result ≡ spec.counts_fit report.now }
{
    report.recovered_count <= report.iterations
        && report.recovered.len() as u64 == report.recovered_count.min(u64::from(LISTED))
        && ascend(report.recovered.as_slice(), report.iterations)
}

/// The report, where its counts fit.
fn fitting(report: RegionReport) -> Option<RegionReport>
    ensures { result ≡ spec.fitting report }
{
    if counts_fit(&report) {
        Some(report)
    } else {
        None
    }
}

fn numbers(alloc: Global, text: Option<&[u8]>) -> Result<Option<Row<u64>>, NoMemory>
    ensures { IfOk result (λ numbers. numbers ≡ spec.each_read spec.count (words_behind (option_copied text.entry))) }
{
    let mut numbers = Row::new(alloc);
    let mut rest = text;
    'words: while let Some(text) = rest {
        let (word, more) = next_word(text);
        let Some(number) = count(word) else {
            return Ok(None);
        };
        numbers.push(number)?;
        rest = more;
    }
    Ok(Some(numbers))
}

/// What stands before a colon at the end.
fn before_colon(word: &[u8]) -> Option<&[u8]>
    ensures { option_copied result ≡ spec.before_colon word.now }
{
    let (last, digits) = word.split_last()?;
    if *last == b':' { Some(digits) } else { None }
}

/// A count, which has a colon where numbers follow it.
#[tactic(auto, using(crate::proofs::WordLemmas::counted_more))]
fn counted(word: &[u8], numbers: Option<&[u8]>) -> Option<u64>
    ensures { result ≡ spec.counted word.now (words_behind (option_copied numbers.entry)) }
{
    match numbers {
        None => count(word),
        Some(_) => count(before_colon(word)?),
    }
}

fn report_from(
    alloc: Global,
    region: Option<u32>,
    iterations: Option<u64>,
    again: Option<u64>,
    numbers: Option<Row<u64>>,
) -> Option<RegionReport>
    ensures { result ≡ spec.report_from region iterations again numbers }
{
    let report = RegionReport {
        region: region?,
        iterations: iterations?,
        recovered_count: again?,
        recovered: numbers?,
        causes: Row::new(alloc),
    };
    fitting(report)
}

fn report_words(text: Option<&[u8]>) -> Option<ReportWords<'_>>
    ensures { MatchOption result (spec.report_of (words_behind (option_copied text.entry)) ≡ None)
        (λ words. spec.report_of (words_behind (option_copied text.entry)) ≡ spec.report_by words.region.now words.iterations.now words.again.now
        (words_behind (option_copied words.numbers))) }
{
    let (region, rest) = next_word(text?);
    let (iterations_label, rest) = next_word(rest?);
    let (iterations, rest) = next_word(rest?);
    let (again_label, rest) = next_word(rest?);
    let (again, numbers) = next_word(rest?);
    if iterations_label == b"iterations".as_slice() && again_label == b"recovered".as_slice() {
        Some(ReportWords {
            region,
            iterations,
            again,
            numbers,
        })
    } else {
        None
    }
}

/// The report that these words say.
pub fn read_report(alloc: Global, text: Option<&[u8]>) -> Result<Option<RegionReport>, NoMemory>
    ensures { IfOk result (λ report. report ≡ spec.report_of (words_behind (option_copied text.entry))) }
{
    match report_words(text) {
        None => Ok(None),
        Some(words) => report_of(alloc, words),
    }
}

fn report_of(alloc: Global, words: ReportWords<'_>) -> Result<Option<RegionReport>, NoMemory>
    ensures { IfOk result (λ report. report ≡ spec.report_by words.entry.region.now words.entry.iterations.now words.entry.again.now
        (words_behind (option_copied words.entry.numbers))) }
{
    let listed = numbers(alloc, words.numbers)?;
    let again = counted(words.again, words.numbers);
    Ok(report_from(
        alloc,
        number(words.region),
        count(words.iterations),
        again,
        listed,
    ))
}
