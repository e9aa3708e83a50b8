//! Logs of runs, and their audits: each log is that of its run, and with any line changed it isn't from there on.
use super::cases::cut;
use super::{CREWS, answer_to, expect, status_of};
use dp_base::NoMemory;
use std::alloc::Global;
use std::process::Abort;
use std::sync::Wait;
use std::test::Fail;
use std::thread::Threads;
use std::time::Clock;

/// A program's name, the words behind it, and the log.
const LOGS: &[&str] = &[
    "sum_loop.c |  => log 1\nregion 1\ncommit 0\nset 1 1\nprint 0\ncommit 1\nset 0 1\nset 1 2\nprint 1\ncommit 2\nset 0 3\nset 1 3\nprint 3\ncommit 3\nclosed 1\nend done\n",
    "sum_loop.c |  --fuel 9 => log 1\nregion 1\ncommit 0\nset 1 1\nprint 0\ncommit 1\nset 0 1\nset 1 2\nprint 1\nend fuel\n",
    "sum_loop.c |  --fuel 10 => log 1\nregion 1\ncommit 0\nset 1 1\nprint 0\ncommit 1\nset 0 1\nset 1 2\nprint 1\nagain 2\nend fuel\n",
    "sum_loop.c |  --fuel 11 => log 1\nregion 1\ncommit 0\nset 1 1\nprint 0\ncommit 1\nset 0 1\nset 1 2\nprint 1\nagain 2\nset 0 3\nend fuel\n",
    "stale_read.c |  --plan stale.plan => log 1\nregion 1\ncommit 0\nset 2 1\nset 9 1\ncommit 1\nset 3 2\nset 9 2\nagain 2\nset 4 3\nset 8 1\nset 9 3\ncommit 3\nset 5 4\nset 8 3\nset 9 4\ncommit 4\nset 6 5\nset 8 6\nset 9 5\nagain 5\nset 7 6\nset 8 10\nset 9 6\ncommit 6\nclosed 1\nend done\n",
    "same_value.c |  --plan stale.plan => log 1\nregion 1\ncommit 0\nset 9 1\ncommit 1\nset 9 2\ncommit 2\nset 9 3\ncommit 3\nset 9 4\ncommit 4\nset 9 5\ncommit 5\nset 9 6\ncommit 6\nclosed 1\nend done\n",
    "skip_negative.c |  skip.in --plan skip.plan => log 1\nregion 1\ncommit 0\nset 0 5\nset 1 1\nagain 1\nset 0 4\nset 1 3\ncommit 2\nset 0 12\nset 1 4\ncommit 3\nclosed 1\nend done\n",
    "early_exit.c |  exit.in --plan exit_in_front.plan => log 1\nregion 1\ncommit 0\nset 0 5\nset 1 1\ncommit 1\nclosed 1\nend done\n",
    "early_exit.c |  exit.in --plan exit_behind.plan => log 1\nregion 1\ncommit 0\nset 0 5\nset 1 1\nagain 1\nclosed 1\nend done\n",
    "zero_divisor.c |  => log 1\nregion 1\ncommit 0\nset 0 4\nset 1 1\ncommit 1\nset 0 6\nset 1 2\ncommit 2\nset 0 12\nset 1 3\nagain 3\nend fault divide line 6\n",
    "two_regions.c |  --plan two_regions.plan => log 1\nregion 1\ncommit 0\nset 0 1\nprint 0\nprint 2\ncommit 1\nset 0 2\nprint 1\nprint 4\ncommit 2\nclosed 1\nregion 2\ncommit 0\nset 1 1\ncommit 1\nset 1 2\ncommit 2\nclosed 2\nend done\n",
    "two_regions.c |  --plan two_regions.plan --fuel 13 => log 1\nregion 1\ncommit 0\nset 0 1\nprint 0\nprint 2\ncommit 1\nset 0 2\nprint 1\nprint 4\ncommit 2\nclosed 1\nend fuel\n",
    "locals.c |  => log 1\nregion 1\ncommit 0\nset 2 1\nprint 0\nprint -1\ncommit 1\nset 1 5\nset 2 2\nprint 5\nprint -2\ncommit 2\nset 0 10\nset 2 3\nprint 10\nprint -3\ncommit 3\nclosed 1\nend done\n",
    "plain.c |  => log 1\nend done\n",
];

/// The parts of a row.
fn parts(row: &'static str) -> (&'static str, &'static str, &'static str) {
    let (words, log) = cut(row, " => ");
    let (name, rest) = cut(words, " | ");
    (name, rest, log)
}

/// The log of the row is written, with this behind its words.
fn expect_log<R: Abort + Threads + Wait + Clock + Sync>(
    rt: &R,
    alloc: Global,
    row: &'static str,
    more: &str,
) -> Result<(), NoMemory> {
    let (name, rest, log) = parts(row);
    let words = format!(in alloc; "log {name}{rest}{more}")?;
    let answered = answer_to(rt, alloc, &words, &[], &[], None)?;
    expect(rt, &answered, log.as_bytes(), status_of(log), &words, "");
    Ok(())
}

#[test]
fn logs_are_written(rt: HostRuntime) -> Result<(), Fail> {
    for row in LOGS {
        for crew in CREWS {
            expect_log(&rt, rt.alloc(), row, crew)?;
        }
    }
    Ok(())
}

/// The audit of this text, in the place of the row's log, ends so.
fn expect_audit<R: Abort + Threads + Wait + Clock + Sync>(
    rt: &R,
    alloc: Global,
    row: &'static str,
    text: &str,
) -> Result<(), NoMemory> {
    let (name, rest, log) = parts(row);
    let held = [("log.txt", text.as_bytes())];
    let words = format!(in alloc; "audit {name} log.txt{rest}")?;
    let line = other_line(log.as_bytes(), text.as_bytes());
    let answer = match line {
        None => format!(in alloc; "audit ok\n")?,
        Some(line) => format!(in alloc; "audit differs line {line}\n")?,
    };
    let answered = answer_to(rt, alloc, &words, &held, &[], None)?;
    expect(
        rt,
        &answered,
        answer.as_bytes(),
        status_of(&answer),
        &words,
        text,
    );
    Ok(())
}

/// The number, from 1, of the first line that isn't the same in both.
fn other_line(text: &[u8], other: &[u8]) -> Option<u64> {
    let mut line: u64 = 1;
    for (place, byte) in text.iter().enumerate() {
        if other.get(place) != Some(byte) {
            return Some(line);
        }
        if *byte == b'\n' {
            line = line.saturating_add(1);
        }
    }
    if other.len() > text.len() {
        return Some(line);
    }
    None
}

/// What may be done to a line: it is changed, dropped, doubled, or stands behind the next one.
const CHANGES: [&str; 4] = ["changed", "dropped", "doubled", "swapped"];

/// The line of a text at a place, without its end.
fn nth_line(text: &str, place: usize) -> &str {
    text.split('\n').nth(place).unwrap_or("")
}

/// From which place the line comes that is to stand here.
fn origin(place: usize, at: usize, change: &str) -> usize {
    if change == "swapped" && place == at {
        return place.saturating_add(1);
    }
    if change == "swapped" && place == at.saturating_add(1) {
        return at;
    }
    place
}

/// The log with this done to the line at a place.
fn changed(alloc: Global, log: &str, at: usize, change: &str) -> Result<String, NoMemory> {
    let mut out = String::new(alloc);
    for place in 0..log.trim_end().split('\n').count() {
        let line = nth_line(log, origin(place, at, change));
        if place == at && change == "dropped" {
            continue;
        }
        if place == at && change == "doubled" {
            out.push_str(line)?;
            out.push_str("\n")?;
        }
        out.push_str(line)?;
        if place == at && change == "changed" {
            out.push_str("0")?;
        }
        out.push_str("\n")?;
    }
    Ok(out)
}

#[test]
fn logs_are_audited(rt: HostRuntime) -> Result<(), Fail> {
    for row in LOGS {
        let (_, _, log) = parts(row);
        expect_audit(&rt, rt.alloc(), row, log)?;
        expect_audit(&rt, rt.alloc(), row, log.trim_end())?;
        for at in 0..log.trim_end().split('\n').count() {
            for change in CHANGES {
                let text = changed(rt.alloc(), log, at, change)?;
                expect_audit(&rt, rt.alloc(), row, &text)?;
            }
        }
    }
    Ok(())
}

/// Texts that are no log at all, and one that is too long.
#[test]
fn other_texts_are_no_logs(rt: HostRuntime) -> Result<(), Fail> {
    let full = vec![in rt.alloc(); b'\n'; 16_777_216]?;
    let long = vec![in rt.alloc(); b'\n'; 16_777_217]?;
    let texts: [(&[u8], &[u8], u8); 5] = [
        (b"", b"audit differs line 1\n", 10),
        (b"log 1", b"audit differs line 1\n", 10),
        (b"log 1\n\xff\n", b"audit differs line 2\n", 10),
        (full.as_slice(), b"audit differs line 1\n", 10),
        (long.as_slice(), b"limit log-bytes 16777217\n", 9),
    ];
    for (log, text, status) in texts {
        let held = [("log.txt", log)];
        let words = "audit sum_loop.c log.txt";
        let answered = answer_to(&rt, rt.alloc(), words, &held, &[], None)?;
        expect(&rt, &answered, text, status, words, "");
    }
    Ok(())
}
