//! The whole program over a shelf and a sink in memory, by tables of texts.
//!
//! The first row of a table is its pattern, `WORDS | PROGRAM | INPUT | PLAN => TEXT`: the words, what `p.c`, `in.txt` and
//! `plan.txt` hold, and what is written. Each further row is a case: its parts, ` | ` apart, stand for `$1` to `$3` in the
//! pattern's front, and those behind ` => ` in its text. A part `N*TEXT` between backticks is that text N times, with `@`
//! for the numbers from 0 on and `^` for those from 1 on. The exit status is that of the text's last line.
mod arithmetic;
mod automatic;
mod batches;
mod bytes;
mod calls;
mod cases;
mod causes;
mod choices;
mod examples;
mod exits;
mod explained;
mod hostile;
mod inputs;
mod library;
mod limits;
mod logs;
mod loops;
mod made;
mod messages;
mod names;
mod observed;
mod overlap;
mod pipelines;
mod plan_rules;
mod plan_texts;
mod profiles;
mod saved;
mod sites;
mod syntax;
mod units;
mod words;

ghost use Rattle.std.specs.Prelude.{◌≡◌, IfOk};

use cases::{cut, filled};
use dp_base::{NoMemory, Row};
use dp_drive::drive;
use dp_edge::{Gate, Held, MemShelf, MemSink, OpenGate};
use dp_run::{NoNativeCode, Tally, Unwatched};
use library::LIBRARY;
use std::alloc::Global;
use std::process::Abort;
use std::sync::Wait;
use std::thread::Threads;
use std::time::Clock;

/// A text under a name.
type Named<'t> = (&'t str, &'t [u8]);

/// What an exit status goes with: how the last line begins. With every other one it is 0.
const STATUSES: [(&str, u8); 8] = [
    ("end fault", 1),
    ("refused words", 2),
    ("refused program", 3),
    ("refused ", 4),
    ("failed read", 5),
    ("end fuel", 8),
    ("limit", 9),
    ("audit differs", 10),
];

/// Workers and lanes that give the same text.
const CREWS: [&str; 5] = [
    " --workers 1 --lane 1",
    " --workers 1 --lane 64",
    " --workers 2 --lane 16",
    " --workers 8 --lane 64",
    " --workers 8 --lane 1",
];

/// What was answered: the status, what was written, and how many iterations were committed from a pipeline.
#[derive(Drop)]
struct Answered {
    status: u8,
    sink: MemSink,
    committed: u64,
}

impl Answered {
    fn text(&self) -> &str {
        str::from_utf8(self.sink.bytes()).unwrap_or("no text")
    }
}

/// A shelf with these texts and those of the library, whose reads with these numbers fail.
fn shelf_of(alloc: Global, held: &[Named], failing: &[u64]) -> Result<MemShelf, NoMemory>
    ensures { IfOk result (λ shelf. shelf.faults ≡ 0) }
{
    let mut texts = Row::new(alloc);
    for (name, content) in held.iter().chain(LIBRARY) {
        texts.push(Held {
            name: Row::from_slice(alloc, name.as_bytes())?,
            content: Row::from_slice(alloc, content)?,
        })?;
    }
    Ok(MemShelf::new(alloc, texts, Row::from_slice(alloc, failing)?))
}

/// The words, which stand blanks apart; `''` is an empty one.
fn words_of(alloc: Global, words: &str) -> Result<Vec<String>, NoMemory> {
    let mut list = Vec::new(alloc);
    for word in words.split_whitespace() {
        let word = if word == "''" { "" } else { word };
        list.push(String::from_str(alloc, word)?)?;
    }
    Ok(list)
}

/// What is answered where these reads fail and the sink has so much room.
fn answer_to<R: Abort + Threads + Wait + Clock + Sync>(
    rt: &R,
    alloc: Global,
    words: &str,
    held: &[Named],
    failing: &[u64],
    room: Option<u64>,
) -> Result<Answered, NoMemory> {
    answer_at(rt, alloc, words, held, failing, room, &OpenGate)
}

/// What the words are answered where the stages pass this gate.
fn answer_at<R: Abort + Threads + Wait + Clock + Sync, G: Gate>(
    rt: &R,
    alloc: Global,
    words: &str,
    held: &[Named],
    failing: &[u64],
    room: Option<u64>,
    gate: &G,
) -> Result<Answered, NoMemory> {
    let list = words_of(alloc, words)?;
    let mut shelf = shelf_of(alloc, held, failing)?;
    let mut sink = MemSink::new(alloc, room);
    let mut tally = Tally::new(Unwatched);
    let words = list.as_slice();
    let status = drive(
        rt,
        alloc,
        &NoNativeCode,
        words,
        &mut shelf,
        &mut sink,
        gate,
        &mut tally,
    );
    let committed = tally.count();
    Ok(Answered {
        status,
        sink,
        committed,
    })
}

/// The exit status that goes with a text. A batch's is 0 however its runs end.
fn status_of(text: &str) -> u8 {
    if text.starts_with("input ") {
        return 0;
    }
    let last = match text.trim_end().rsplit_once('\n') {
        Some((_, last)) => last,
        None => text,
    };
    for (front, status) in STATUSES {
        if last.starts_with(front) {
            return status;
        }
    }
    0
}

/// These bytes were written with this status, in this case of a table or for these words.
fn expect<R: Abort>(rt: &R, answered: &Answered, bytes: &[u8], status: u8, words: &str, row: &str) {
    let text = answered.text();
    assert!(rt; answered.sink.bytes() == bytes, "{words} {row} gave {text}");
    assert_eq!(rt; answered.status, status, "{words} {row}");
}

/// Each case of the table is answered as it says, with these words behind its own.
fn each_with<R: Abort + Threads + Wait + Clock + Sync>(
    rt: &R,
    alloc: Global,
    table: &[&str],
    more: &str,
) -> Result<(), NoMemory> {
    assert!(rt; table.len() > 1);
    let (front, text) = cut(table[0], " => ");
    let (words, texts) = cut(front, " | ");
    let (program, texts) = cut(texts, " | ");
    let (input, plan) = cut(texts, " | ");
    for row in table.iter().skip(1) {
        let (parts, ends) = cut(row, " => ");
        let mut words = filled(alloc, words, parts)?;
        words.push_str(more)?;
        let program = filled(alloc, program, parts)?;
        let input = filled(alloc, input, parts)?;
        let plan = filled(alloc, plan, parts)?;
        let held = [
            ("p.c", program.as_bytes()),
            ("in.txt", input.as_bytes()),
            ("plan.txt", plan.as_bytes()),
        ];
        let answered = answer_to(rt, alloc, &words, &held, &[], None)?;
        let text = filled(alloc, text, ends)?;
        expect(
            rt,
            &answered,
            text.as_bytes(),
            status_of(&text),
            &words,
            row,
        );
    }
    Ok(())
}

/// Each case of the table is answered as it says.
fn each<R: Abort + Threads + Wait + Clock + Sync>(
    rt: &R,
    alloc: Global,
    table: &[&str],
) -> Result<(), NoMemory> {
    each_with(rt, alloc, table, "")
}

/// Each case of the table is answered as it says, with each number of workers and each lane.
fn each_crew<R: Abort + Threads + Wait + Clock + Sync>(
    rt: &R,
    alloc: Global,
    table: &[&str],
) -> Result<(), NoMemory> {
    for crew in CREWS {
        each_with(rt, alloc, table, crew)?;
    }
    Ok(())
}
