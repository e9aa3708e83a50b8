//! A line of plans, of a profile, of a checkpoint or of a list that can't stand there.
use crate::page::Page;
use crate::source::{Line, Source, line_at, numbered_line, piece, put_head, put_spot, written_on};

/// What a text is read line by line for.
#[derive(Clone, Copy)]
pub enum LineText {
    Plans,
    Profile,
    Checkpoint,
    List,
}

/// A line's first word, what such a line looks like, and what may stand behind it.
type Form = (&'static [u8], &'static str, &'static str);

const PLAN_FORMS: [Form; 6] = [
    (
        b"plan",
        "the first line is `plan 1` or `plan 2`",
        "`region 1 words W`, or `end` where the program has no marked loop",
    ),
    (
        b"region",
        "`region N words W`: N counts the marked loops from 1, and W is from 16 to 4096",
        "`seq SITE ..` or `par SITE ..`",
    ),
    (
        b"seq",
        "`seq SITE ..`: one site or more, ascending, single spaces apart",
        STAGE_OR_MORE,
    ),
    (
        b"par",
        "`par SITE ..`: one site or more, ascending, single spaces apart",
        STAGE_OR_MORE,
    ),
    (
        b"assume",
        "`assume SITE V`: V is 0 or 1",
        "`assume SITE V`, the `region` line of the next marked loop, or `end`",
    ),
    (
        b"end",
        "`end` stands once, last, behind the lines of each marked loop",
        "nothing",
    ),
];

const STAGE_OR_MORE: &str =
    "`seq SITE ..` or `par SITE ..` up to eight stages, `assume SITE V`, the `region` line of the next marked loop, or `end`";

const PROFILE_FORMS: [Form; 5] = [
    (
        b"profile",
        "the first line is `profile 1`",
        "`region 1`, or `end` where the program has no marked loop",
    ),
    (
        b"region",
        "`region N`: N counts the marked loops from 1",
        "`runs SITE RUNS NONZERO` of its first site",
    ),
    (
        b"runs",
        "`runs SITE RUNS NONZERO`: each site of the loop in order, NONZERO at most RUNS and 0 without a condition",
        RUNS_OR_MORE,
    ),
    (
        b"flow",
        "`flow FROM TO intra COUNT` or `flow FROM TO carried COUNT`, ascending by FROM and TO, `intra` first",
        "`flow ..`, the `region` line of the next marked loop, or `end`",
    ),
    (
        b"end",
        "`end` stands once, last, behind the lines of each marked loop",
        "nothing",
    ),
];

const RUNS_OR_MORE: &str =
    "`runs ..` of the loop's next site; behind its last one `flow ..`, the next `region` line, or `end`";

const CHECKPOINT_FORMS: [Form; 5] = [
    (
        b"checkpoint",
        "the first line is `checkpoint 1`",
        "`region N after I steps S fuel F`",
    ),
    (
        b"region",
        "`region N after I steps S fuel F`: N is a marked loop of the program, and S at most F",
        "`cells VALUE ..`",
    ),
    (
        b"cells",
        "`cells VALUE ..`: a value for each cell of the program, and 0 for those of variables in marked loops",
        "`report 1 iterations T recovered C`",
    ),
    (
        b"report",
        "`report N iterations T recovered C`, and `: ITERATION ..` behind a C above 0: one for each marked loop up to that of line 2",
        "the next `report` line, or `end`",
    ),
    (b"end", "`end` stands once, last", "nothing"),
];

const LIST_FORM: &str =
    "a list has 1 to 64 lines: a file's name of 1 to 255 bytes in UTF-8, with an LF behind it";

/// Tells of the line with this number, from 1.
pub fn tell_line(page: &mut Page, source: Source<'_>, text: LineText, number: u64) {
    let line = numbered_line(source.text, number);
    let spot = written_on(source.text, line);
    let ends = is_behind(source.text, number);
    put_head(page, source, spot, "error");
    if ends {
        page.put(name_of(text));
        page.put(" can't end here\n");
    } else {
        page.put("this line can't stand here in ");
        page.put(name_of(text));
        page.put("\n");
    }
    put_spot(page, source, spot, "");
    if !ends && line.end == source.text.len() {
        page.hint("each line ends with an LF, also the last one");
    }
    match text {
        LineText::List => page.hint(LIST_FORM),
        LineText::Plans => put_forms(page, source.text, &PLAN_FORMS, line),
        LineText::Profile => put_forms(page, source.text, &PROFILE_FORMS, line),
        LineText::Checkpoint => put_forms(page, source.text, &CHECKPOINT_FORMS, line),
    }
}

fn name_of(text: LineText) -> &'static str {
    match text {
        LineText::Plans => "a text of plans",
        LineText::Profile => "a profile",
        LineText::Checkpoint => "a checkpoint",
        LineText::List => "a list",
    }
}

/// Whether a text has fewer lines.
fn is_behind(text: &[u8], number: u64) -> bool {
    let last = line_at(text, text.len());
    number > last.number || (number == last.number && last.from == text.len())
}

/// Puts what a line that begins so looks like, and what may stand behind the line before.
fn put_forms(page: &mut Page, text: &[u8], forms: &[Form], line: Line) {
    if line.number <= 1 {
        if let Some((_, form, _)) = forms.first() {
            page.hint(form);
        }
        return;
    }
    let before = numbered_line(text, line.number.saturating_sub(1));
    if let Some((_, form, _)) = form_of(forms, text, line) {
        page.hint(form);
    }
    if let Some((word, _, next)) = form_of(forms, text, before) {
        page.put("      = hint: behind a `");
        page.put_bytes(word);
        page.put("` line stands ");
        page.put(next);
        page.put("\n");
    }
}

/// The form of a line by its first word.
fn form_of<'f>(forms: &'f [Form], text: &[u8], line: Line) -> Option<&'f Form> {
    let written = piece(text, line.from, line.end);
    let len = written.iter().take_while(|byte| **byte != b' ').count();
    let first = piece(written, 0, len);
    for form in forms {
        if form.0 == first {
            return Some(form);
        }
    }
    None
}
