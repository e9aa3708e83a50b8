//! How a run ended, and why iterations were executed again.
ghost use Rattle.std.specs.Prelude.{◌≡◌, ◌<◌, ◌≤◌, ◌-◌, ◌^◌, length};
ghost use Rattle.dp_base.specs.declared.limits.TheConstants.{PROGRAM_BYTES};

use crate::answer::{LastLine, again_on, last_line, number_at, word_at};
use crate::files::{Files, fuel_of, lists_causes};
use crate::page::Page;
use crate::reading::text_of;
use crate::source::{Source, Spot, numbered_line, piece, put_head, put_spot, written_on};
use dp_base::NoMemory;
use dp_base::limits::{LOG_BYTES, PROGRAM_BYTES};
use dp_edge::Shelf;
use dp_load::read_program;
use dp_tree::Program;
use dp_words::Task;
use std::alloc::Global;

/// Tells how a task's run ended, by the last bytes of its text, and why iterations were executed again.
pub fn tell_run<S: Shelf>(
    alloc: Global,
    page: &mut Page,
    task: &Task<'_>,
    files: Files<'_>,
    tail: &[u8],
    shelf: &mut S,
) -> Result<(), NoMemory>
    requires { S.faults shelf.old < 2 ^ 64 - 1 }
    ensures { S.contents shelf.new ≡ S.contents shelf.old }
{
    let last = last_line(tail);
    if let LastLine::Differs(line) = last {
        return tell_difference(alloc, page, files, line, shelf);
    }
    let again = all_again(tail);
    if let LastLine::Other = last {
        if again == 0 {
            return Ok(());
        }
    }
    let Some(text) = text_of(alloc, shelf, files.program, PROGRAM_BYTES)? else {
        return Ok(());
    };
    let source = Source {
        name: files.program.unwrap_or(""),
        text: text.as_slice(),
    };
    if lists_causes(task) {
        put_causes(alloc, page, source, tail)?;
    } else if again > 0 {
        put_again(page, source.name, again, matches!(task, Task::Run(_)));
    }
    put_end(page, source, last, fuel_of(task));
    Ok(())
}

/// Tells of the first line of a log that differs from that of its run.
fn tell_difference<S: Shelf>(
    alloc: Global,
    page: &mut Page,
    files: Files<'_>,
    number: u64,
    shelf: &mut S,
) -> Result<(), NoMemory>
    requires { S.faults shelf.old < 2 ^ 64 - 1 }
    ensures { S.contents shelf.new ≡ S.contents shelf.old }
{
    if let Some(text) = text_of(alloc, shelf, files.log, LOG_BYTES)? {
        let source = Source {
            name: files.log.unwrap_or(""),
            text: text.as_slice(),
        };
        let spot = line_spot(source.text, number);
        put_head(page, source, spot, "error");
        page.put("the log of this run has another line here\n");
        put_spot(page, source, spot, "");
    }
    Ok(())
}

/// How many iterations were executed again in all regions.
fn all_again(tail: &[u8]) -> u64 {
    let mut again: u64 = 0;
    let mut from = 0;
    for (at, byte) in tail.iter().enumerate() {
        if *byte == b'\n' {
            again = again.saturating_add(again_on(piece(tail, from, at)));
            from = at.saturating_add(1);
        }
    }
    again
}

fn put_again(page: &mut Page, name: &str, again: u64, may_ask: bool) {
    page.put(name);
    page.put(": note: ");
    page.put_number(again);
    page.put(if again == 1 {
        " iteration was"
    } else {
        " iterations were"
    });
    page.put(" executed again");
    page.put(if may_ask {
        "; `--why` tells the causes\n"
    } else {
        "\n"
    });
}

/// Puts each listed cause that the tail holds, with its line of the program.
fn put_causes(
    alloc: Global,
    page: &mut Page,
    source: Source<'_>,
    tail: &[u8],
) -> Result<(), NoMemory>
    requires { length source.text.now ≤ PROGRAM_BYTES }
{
    let Ok(program) = read_program(alloc, source.text)? else {
        return Ok(());
    };
    let mut from = 0;
    for (at, byte) in tail.iter().enumerate() {
        if *byte == b'\n' {
            let line = piece(tail, from, at);
            if matches!(word_at(line, 0), b"cause") {
                put_cause(page, source, &program, line);
            }
            from = at.saturating_add(1);
        }
    }
    Ok(())
}

/// Puts the cause of a line.
fn put_cause(page: &mut Page, source: Source<'_>, program: &Program, line: &[u8]) {
    let kind = word_at(line, 2);
    let spot = match kind {
        b"load" | b"assume" => site_spot(source.text, program, number_at(line, 4)),
        b"words" => site_spot(source.text, program, number_at(line, 6)),
        b"fault" => line_spot(source.text, number_at(line, 5)),
        _ => return,
    };
    put_head(page, source, spot, "note");
    page.put("iteration ");
    page.put_bytes(word_at(line, 1));
    page.put(" was executed again: ");
    match kind {
        b"load" => put_load(page, line),
        b"assume" => page.put("this went otherwise than the plan goes on"),
        b"words" => page.put("its stage had more words here than the plan allows"),
        _ => page.put("the program faults here"),
    }
    page.put("\n");
    put_spot(page, source, spot, "");
}

/// Puts what a load saw.
fn put_load(page: &mut Page, line: &[u8]) {
    page.put("a load here saw ");
    page.put_bytes(word_at(line, 8));
    page.put(" in cell ");
    page.put_bytes(word_at(line, 6));
    page.put(", where the source loads ");
    page.put_bytes(word_at(line, 10));
}

/// The line of a site.
fn site_spot(text: &[u8], program: &Program, site: u64) -> Spot {
    let line = match program.sites.get((site as usize).saturating_sub(1)) {
        Some(info) => u64::from(info.line),
        None => 1,
    };
    line_spot(text, line)
}

fn line_spot(text: &[u8], line: u64) -> Spot {
    written_on(text, numbered_line(text, line))
}

/// Puts how a run ended.
fn put_end(page: &mut Page, source: Source<'_>, last: LastLine<'_>, fuel: Option<u64>) {
    match last {
        LastLine::Fault(kind, line) => {
            let spot = line_spot(source.text, line);
            put_head(page, source, spot, "error");
            page.put(match kind {
                b"divide" => "the program ended here: a divisor is 0",
                b"index" =>
                    "the program ended here: an index is below 0, or not below the length of its array",
                _ => "the program ended here: a result lies outside 64 bits",
            });
            page.put("\n");
            put_spot(page, source, spot, "");
        }
        LastLine::Fuel => put_fuel(page, source.name, fuel),
        LastLine::Differs(_) | LastLine::Other => {}
    }
}

fn put_fuel(page: &mut Page, name: &str, fuel: Option<u64>) {
    page.put(name);
    page.put(": error: the program hadn't ended after ");
    match fuel {
        Some(steps) => {
            page.put_number(steps);
            page.put(" steps\n");
            page.hint("`--fuel N` lets it make N steps, up to 1000000000");
        }
        None => page.put("the steps of its fuel\n"),
    }
}
