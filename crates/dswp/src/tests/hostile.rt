//! Texts that are cut or spoiled, reads that fail, and sinks without room.
use super::cases::{cut, repeated};
use super::library::{
    SKIP_PLAN, SKIP_PROFILE, STALE_CHECKPOINT, STALE_PLAN, SUM_LOOP, SUM_PROFILE, WORD_TABLE,
};
use super::{answer_to, expect, status_of};
use dp_base::{NoMemory, Row};
use std::alloc::Global;
use std::process::Abort;
use std::sync::Wait;
use std::test::Fail;
use std::thread::Threads;
use std::time::Clock;

/// The number, from 1, of the line that a place of the text is in.
fn line_at(text: &[u8], place: usize) -> u64 {
    let mut line: u64 = 1;
    for byte in text.iter().take(place) {
        if *byte == b'\n' {
            line = line.saturating_add(1);
        }
    }
    line
}

// Only the last line feed may be missing.
#[test]
fn a_program_that_is_cut_is_refused(rt: HostRuntime) -> Result<(), Fail> {
    for program in [SUM_LOOP, WORD_TABLE] {
        for place in 0..program.len() {
            let (front, _) = program.split_at(place);
            let answered = answer_to(&rt, rt.alloc(), "run p.c", &[("p.c", front)], &[], None)?;
            let status = if place + 1 == program.len() { 0 } else { 3 };
            assert_eq!(&rt; answered.status, status, "{place}");
        }
    }
    Ok(())
}

/// The text beside a program is refused at this line.
fn expect_line_at<R: Abort + Threads + Wait + Clock + Sync>(
    rt: &R,
    alloc: Global,
    kind: &str,
    words: &str,
    side: &[u8],
    line: u64,
) -> Result<(), NoMemory> {
    let answered = answer_to(rt, alloc, words, &[("side.txt", side)], &[], None)?;
    let text = format!(in alloc; "refused {kind} line {line}\n")?;
    expect(rt, &answered, text.as_bytes(), 4, words, "");
    Ok(())
}

/// Plans, profiles and a checkpoint, each with the words that read it.
const SIDES: [(&str, &str, &[u8]); 5] = [
    ("plan", "run stale_read.c --plan side.txt", STALE_PLAN),
    ("plan", "run skip_negative.c --plan side.txt", SKIP_PLAN),
    ("profile", "run sum_loop.c --profile side.txt", SUM_PROFILE),
    (
        "profile",
        "run skip_negative.c --profile side.txt",
        SKIP_PROFILE,
    ),
    (
        "checkpoint",
        "resume stale_read.c side.txt",
        STALE_CHECKPOINT,
    ),
];

#[test]
fn a_side_text_that_is_cut_is_refused_at_its_end(rt: HostRuntime) -> Result<(), Fail> {
    for (kind, words, side) in SIDES {
        for place in 0..side.len() {
            let (front, _) = side.split_at(place);
            let line = line_at(side, place);
            expect_line_at(&rt, rt.alloc(), kind, words, front, line)?;
        }
    }
    Ok(())
}

// No word or number of these texts has an `x`.
#[test]
fn a_spoiled_byte_is_refused_at_its_line(rt: HostRuntime) -> Result<(), Fail> {
    for (kind, words, side) in SIDES {
        for place in 0..side.len() {
            let mut spoiled = Row::from_slice(rt.alloc(), side)?;
            if place < spoiled.len() {
                spoiled.set(place, b'x');
            }
            let line = line_at(side, place);
            expect_line_at(&rt, rt.alloc(), kind, words, spoiled.as_slice(), line)?;
        }
    }
    Ok(())
}

/// What is held for the runs below.
const HELD: &[(&str, &[u8])] = &[
    ("in.txt", b"5 -1 7 8"),
    ("bins.txt", b"0 1 2 3 4 5 6"),
    ("bad.c", b"int"),
    (
        "bins.plan",
        b"plan 1\nregion 1 words 4096\nseq 2 3 4\npar 5\nseq 6\nend\n",
    ),
];

/// Words, and what is written where the sink has room for it.
const WRITTEN: &[&str] = &[
    "run sum_loop.c => 0\n1\n3\nstate\ns 3\nregion 1 iterations 4 recovered 0\nend done\n",
    "run stale_read.c --plan stale.plan => state\na 0 0 1 2 3 4 5 6\ns 10\nregion 1 iterations 7 recovered 2: 2 5\nend done\n",
    "run skip_negative.c in.txt --plan skip.plan --why => state\nn 12\nregion 1 iterations 4 recovered 1: 1\ncause 1 assume site 4\nend done\n",
    "run histogram.c bins.txt --plan bins.plan --workers 8 --lane 1 => state\nh 2 2 1 2\nregion 1 iterations 8 recovered 0\nend done\n",
    "run zero_divisor.c => state\nq 12\nregion 1 iterations 4 recovered 1: 3\nend fault divide line 6\n",
    "run sum_loop.c --fuel 9 => 0\n1\nstate\ns 1\nregion 1 iterations 2 recovered 0\nend fuel\n",
    "plan sum_loop.c => plan 2\nregion 1 words 4096\nseq 2 5\nseq 3 4\nend\n",
    "profile sum_loop.c => profile 1\nregion 1\nruns 2 4 3\nruns 3 3 0\nruns 4 3 0\nruns 5 3 0\nflow 3 3 carried 2\nflow 3 4 intra 3\nflow 5 2 carried 3\nflow 5 3 carried 2\nflow 5 5 carried 2\nend\n",
    "check sum_loop.c => ok\nregion 1 line 5 sites 2 to 5\nsite 1 line 3 assign\nsite 2 line 5 while\nsite 3 line 6 assign\nsite 4 line 7 print\nsite 5 line 8 assign\n",
    "gen 1 1 => gen 1 1\nstate\nhist 0 0 0 0 0 0 0 0 0 0 1 0 0 0 0 0\nsum 10\nregion 1 iterations 2 recovered 0\nend done\n",
    "log sum_loop.c --fuel 10 => log 1\nregion 1\ncommit 0\nset 1 1\nprint 0\ncommit 1\nset 0 1\nset 1 2\nprint 1\nagain 2\nend fuel\n",
    "audit sum_loop.c sum_loop.log => audit ok\n",
    "audit sum_loop.c sum_loop.log --fuel 10 => audit differs line 10\n",
    "save sum_loop.c --region 1 --after 2 => 0\n1\ncheckpoint 1\nregion 1 after 2 steps 9 fuel 10000000\ncells 1 2\nreport 1 iterations 2 recovered 0\nend\n",
    "save sum_loop.c --region 1 --after 9 => 0\n1\n3\nstate\ns 3\nregion 1 iterations 4 recovered 0\nend done\n",
    "resume stale_read.c stale.check --plan stale.plan => state\na 0 0 1 2 3 4 5 6\ns 10\nregion 1 iterations 7 recovered 1: 2\nend done\n",
    "batch skip_negative.c two.list --plan skip.plan => input 1\nstate\nn 12\nregion 1 iterations 4 recovered 1: 1\nend done\ninput 2\nstate\nn 2\nregion 1 iterations 3 recovered 1: 0\nend done\n",
    "run none.c => failed read program\n",
    "check bad.c => refused program syntax token 1\n",
    "walk sum_loop.c => refused words\n",
];

#[test]
fn a_sink_without_room_has_taken_a_front(rt: HostRuntime) -> Result<(), Fail> {
    for row in WRITTEN {
        let (words, text) = cut(row, " => ");
        let bytes = text.as_bytes();
        for room in 0..bytes.len() {
            let answered = answer_to(&rt, rt.alloc(), words, HELD, &[], Some(room as u64))?;
            expect(&rt, &answered, &bytes[..room], 6, words, "");
        }
        let room = Some(bytes.len() as u64);
        let answered = answer_to(&rt, rt.alloc(), words, HELD, &[], room)?;
        expect(&rt, &answered, bytes, status_of(text), words, "");
    }
    Ok(())
}

/// Many prints, in a plain part and in a region.
const PRINTS: [&[u8]; 2] = [
    b"int i; int main() { while (i < 30000) { print(7); i = i + 1; } }",
    b"int i; int main() { #pragma dswp while (i < 1) { while (i < 30000) { print(7); i = i + 1; } } }",
];

#[test]
fn a_sink_that_fails_within_many_prints(rt: HostRuntime) -> Result<(), Fail> {
    let front = repeated(rt.alloc(), "`20000*7\n`7")?;
    for program in PRINTS {
        let held = [("p.c", program)];
        let answered = answer_to(&rt, rt.alloc(), "run p.c", &held, &[], Some(40_001))?;
        expect(&rt, &answered, front.as_bytes(), 6, "", "");
    }
    Ok(())
}

/// The number of the read that fails, the words, and what is written then. A text that is refused keeps the next from being read, and
/// what isn't named isn't read.
const READS: &[&str] = &[
    "1 run skip_negative.c in.txt --plan skip.plan => failed read program\n",
    "2 run skip_negative.c in.txt --plan skip.plan => failed read input\n",
    "3 run skip_negative.c in.txt --plan skip.plan => failed read plan\n",
    "4 run skip_negative.c in.txt --plan skip.plan => state\nn 12\nregion 1 iterations 4 recovered 1: 1\nend done\n",
    "18446744073709551615 run skip_negative.c in.txt --plan skip.plan => state\nn 12\nregion 1 iterations 4 recovered 1: 1\nend done\n",
    "3 run skip_negative.c in.txt --profile skip_negative.prof => failed read profile\n",
    "2 run sum_loop.c --plan x => failed read plan\n",
    "2 run sum_loop.c --profile sum_loop.prof => failed read profile\n",
    "2 run bad.c in.txt => refused program syntax token 1\n",
    "3 run sum_loop.c skip.plan --plan skip.plan => refused input word 1\n",
    "1 plan sum_loop.c --profile sum_loop.prof => failed read program\n",
    "2 plan sum_loop.c --profile sum_loop.prof => failed read profile\n",
    "2 plan sum_loop.c => plan 2\nregion 1 words 4096\nseq 2 5\nseq 3 4\nend\n",
    "1 profile skip_negative.c in.txt => failed read program\n",
    "2 profile skip_negative.c in.txt => failed read input\n",
    "1 check sum_loop.c => failed read program\n",
    "4 audit sum_loop.c sum_loop.log in.txt --plan x => failed read plan\n",
    "3 audit skip_negative.c sum_loop.log in.txt => failed read log\n",
    "2 audit skip_negative.c none in.txt => failed read input\n",
    "4 audit skip_negative.c sum_loop.log in.txt --plan skip.plan => failed read log\n",
    "2 resume stale_read.c stale.check => failed read checkpoint\n",
    "3 resume stale_read.c stale.check --plan stale.plan => failed read checkpoint\n",
    "2 batch skip_negative.c two.list => failed read list\n",
    "3 batch skip_negative.c two.list => failed read input\n",
    "4 batch skip_negative.c two.list => failed read input\n",
    "5 batch skip_negative.c two.list --plan skip.plan => failed read plan\n",
    "1 gen 1 1 => gen 1 1\nstate\nhist 0 0 0 0 0 0 0 0 0 0 1 0 0 0 0 0\nsum 10\nregion 1 iterations 2 recovered 0\nend done\n",
];

#[test]
fn reads_that_fail(rt: HostRuntime) -> Result<(), Fail> {
    for row in READS {
        let (number, rest) = cut(row, " ");
        let (words, text) = cut(rest, " => ");
        let failing = [number.parse::<u64>().unwrap_or(0)];
        let answered = answer_to(&rt, rt.alloc(), words, HELD, &failing, None)?;
        expect(&rt, &answered, text.as_bytes(), status_of(text), "", row);
    }
    Ok(())
}
