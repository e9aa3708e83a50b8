//! The verbs, and what the command of each takes.
ghost use Rattle.std.specs.Prelude.{◌≡◌, ◌≢◌, IfSome, IfNone};
ghost use Rattle.dp_words.specs.steps.Verbs.{verb_name};
ghost use Rattle.dp_words.specs.steps.Table.{AreTrue, IsTrueLine, line_with};

use crate::arguments::{
    AFTER, Argument, CHECKPOINT, FUEL_OPTION, INPUT, LANE_OPTION, LIST, LOG, PLAN, PLAN_OPTIONS,
    PROGRAM, REGION_OPTION, SEED_NUMBER, SIZE, WHY, WORKERS_OPTION,
};

/// What the first word asks to be done.
#[derive(Clone, Copy)]
pub enum Verb {
    Run,
    Plan,
    Explain,
    Check,
    Tree,
    Profile,
    Gen,
    Log,
    Audit,
    Save,
    Resume,
    Batch,
}

/// A verb, its word, and what its command takes, in this order.
#[derive(Clone, Copy)]
pub struct Line {
    pub verb: Verb,
    pub word: &'static str,
    pub names: &'static [Argument],
    pub options: &'static [Argument],
    pub further: &'static [Argument],
}

const LINES: [Line; 12] = [
    Line {
        verb: Verb::Run,
        word: "run",
        names: &[PROGRAM, INPUT, PLAN],
        options: &PLAN_OPTIONS,
        further: &[LANE_OPTION, FUEL_OPTION, WHY],
    },
    Line {
        verb: Verb::Plan,
        word: "plan",
        names: &[PROGRAM],
        options: &PLAN_OPTIONS,
        further: &[],
    },
    Line {
        verb: Verb::Explain,
        word: "explain",
        names: &[PROGRAM],
        options: &PLAN_OPTIONS,
        further: &[],
    },
    Line {
        verb: Verb::Check,
        word: "check",
        names: &[PROGRAM],
        options: &[],
        further: &[],
    },
    Line {
        verb: Verb::Tree,
        word: "tree",
        names: &[PROGRAM],
        options: &[],
        further: &[],
    },
    Line {
        verb: Verb::Profile,
        word: "profile",
        names: &[PROGRAM, INPUT],
        options: &[],
        further: &[FUEL_OPTION],
    },
    Line {
        verb: Verb::Gen,
        word: "gen",
        names: &[SEED_NUMBER, SIZE],
        options: &[],
        further: &[WORKERS_OPTION, LANE_OPTION],
    },
    Line {
        verb: Verb::Log,
        word: "log",
        names: &[PROGRAM, INPUT, PLAN],
        options: &PLAN_OPTIONS,
        further: &[LANE_OPTION, FUEL_OPTION],
    },
    Line {
        verb: Verb::Audit,
        word: "audit",
        names: &[PROGRAM, LOG, INPUT, PLAN],
        options: &PLAN_OPTIONS,
        further: &[LANE_OPTION, FUEL_OPTION],
    },
    Line {
        verb: Verb::Save,
        word: "save",
        names: &[PROGRAM, INPUT, PLAN],
        options: &PLAN_OPTIONS,
        further: &[LANE_OPTION, FUEL_OPTION, REGION_OPTION, AFTER],
    },
    Line {
        verb: Verb::Resume,
        word: "resume",
        names: &[PROGRAM, CHECKPOINT, INPUT, PLAN],
        options: &PLAN_OPTIONS,
        further: &[LANE_OPTION],
    },
    Line {
        verb: Verb::Batch,
        word: "batch",
        names: &[PROGRAM, LIST, PLAN],
        options: &PLAN_OPTIONS,
        further: &[LANE_OPTION, FUEL_OPTION],
    },
];

/// The line of the verb with this word.
pub fn verb_line(word: &str) -> Option<Line>
    ensures named { IfSome result (λ line. word.now ≡ verb_name line.verb) }
    ensures line { IfSome result IsTrueLine }
    ensures none { IfNone result ((verb : Verb) → word.now ≢ verb_name verb) }
{
    find(&LINES, word)
}

/// The first line of the table with this word.
fn find(mut table: &[Line], word: &str) -> Option<Line>
    requires { AreTrue table.now }
    ensures first { result ≡ line_with table.entry.now word.now }
    ensures named { IfSome result (λ line. word.now ≡ verb_name line.verb) }
    ensures line { IfSome result IsTrueLine }
{
    while let [line, rest @ ..] = table {
        if line.word == word {
            return Some(*line);
        }
        table = rest;
    }
    None
}
