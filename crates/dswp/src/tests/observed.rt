//! Profiles: what runs show, to their ends.
use super::{answer_to, cut, each, expect};
use std::alloc::Global;
use std::process::Abort;
use std::sync::Wait;
use std::test::Fail;
use std::thread::Threads;
use std::time::Clock;

/// To their ends: what is asked for behind `profile`, what `p.c` and `in.txt` hold, and the profile without its first and
/// its last line. The flows of a body local stay within an iteration, those of the bound of an inner loop are of both kinds;
/// a cell has its own last writer; what was stored before a region begins isn't shown in it.
const DONE: &[&str] = &[
    "p.c | int main() { } => ",
    "p.c --fuel 0 | int main() { } => ",
    "p.c in.txt | int main() { int i = 0; while (i < input_len) { i = i + 1; } print(i); } | 1 2 => ",
    "sum_loop.c => region 1\nruns 2 4 3\nruns 3 3 0\nruns 4 3 0\nruns 5 3 0\nflow 3 3 carried 2\nflow 3 4 intra 3\nflow 5 2 carried 3\nflow 5 3 carried 2\nflow 5 5 carried 2\n",
    "skip_negative.c in.txt |  | 5 6 7 => region 1\nruns 2 4 3\nruns 3 3 0\nruns 4 3 0\nruns 5 0 0\nruns 6 3 0\nruns 7 3 0\nflow 3 4 intra 3\nflow 3 7 intra 3\nflow 6 2 carried 3\nflow 6 3 carried 2\nflow 6 6 carried 2\nflow 7 7 carried 2\n",
    "--fuel=+18 skip_negative.c in.txt |  | 5 -1 7 8 => region 1\nruns 2 4 3\nruns 3 3 0\nruns 4 3 1\nruns 5 1 0\nruns 6 3 0\nruns 7 3 0\nflow 3 4 intra 3\nflow 3 7 intra 3\nflow 5 6 intra 1\nflow 6 2 carried 3\nflow 6 3 carried 2\nflow 6 5 carried 1\nflow 6 6 carried 1\nflow 7 7 carried 2\n",
    "stale_step.c => region 1\nruns 2 4 3\nruns 3 3 0\nruns 4 9 6\nruns 5 6 0\nruns 6 3 0\nruns 7 3 0\nruns 8 3 0\nflow 3 4 intra 3\nflow 3 5 intra 2\nflow 3 6 intra 1\nflow 5 4 intra 6\nflow 5 5 intra 4\nflow 5 6 intra 2\nflow 6 6 carried 2\nflow 7 5 carried 6\nflow 8 2 carried 3\nflow 8 4 carried 8\nflow 8 8 carried 2\n",
    "early_exit.c in.txt |  | 5 -1 7 => region 1\nruns 2 2 2\nruns 3 2 0\nruns 4 2 1\nruns 5 1 0\nruns 6 1 0\nflow 3 4 intra 2\nflow 3 5 intra 1\nflow 6 2 carried 1\nflow 6 3 carried 1\n",
    "histogram.c in.txt |  | 1 2 1 => region 1\nruns 2 4 3\nruns 3 3 0\nruns 4 3 0\nruns 5 3 0\nruns 6 3 0\nflow 3 5 intra 3\nflow 4 2 carried 3\nflow 4 3 carried 2\nflow 4 4 carried 2\nflow 5 6 intra 6\nflow 6 6 carried 1\n",
    "p.c | int s; int t; int main() { int i = 0; s = 4;\n#pragma dswp\nwhile (i < 2) { s = s + i; i = i + 1; }\nt = s;\n#pragma dswp\nwhile (i < 4) { t = t + s; i = i + 1; } } => region 1\nruns 3 3 2\nruns 4 2 0\nruns 5 2 0\nflow 4 4 carried 1\nflow 5 3 carried 2\nflow 5 4 carried 1\nflow 5 5 carried 1\nregion 2\nruns 7 3 2\nruns 8 2 0\nruns 9 2 0\nflow 8 8 carried 1\nflow 9 7 carried 2\nflow 9 9 carried 1\n",
    "p.c | int n; int main() { int i = 0;\n#pragma dswp\nwhile (i < 2) { int j = 0; while (n < i * 2 + 2) { j = j + n; n = n + 1; } i = i + 1; } } => region 1\nruns 2 3 2\nruns 3 2 0\nruns 4 6 4\nruns 5 4 0\nruns 6 4 0\nruns 7 2 0\nflow 3 5 intra 2\nflow 5 5 intra 2\nflow 6 4 intra 4\nflow 6 4 carried 1\nflow 6 5 intra 2\nflow 6 5 carried 1\nflow 6 6 intra 2\nflow 6 6 carried 1\nflow 7 2 carried 2\nflow 7 4 carried 3\nflow 7 7 carried 1\n",
    "p.c | int g; void add(int a) { g = g + a; } int main() { int i = 0;\n#pragma dswp\nwhile (i < 2) { add(i); add(g); i = i + 1; } } => region 1\nruns 2 3 2\nruns 3 2 0\nruns 4 2 0\nruns 5 2 0\nruns 6 2 0\nruns 7 2 0\nflow 3 4 intra 2\nflow 4 5 intra 2\nflow 4 6 intra 2\nflow 5 6 intra 2\nflow 6 4 carried 1\nflow 7 2 carried 2\nflow 7 3 carried 1\nflow 7 7 carried 1\n",
];

/// To a fault: the evaluation that faults isn't counted, nor are its loads.
const FAULTY: &[&str] = &[
    "p.c | int main() { print(1 / 0); } => ",
    "zero_divisor.c => region 1\nruns 2 4 4\nruns 3 3 0\nruns 4 3 0\nflow 4 2 carried 3\nflow 4 3 carried 2\nflow 4 4 carried 2\n",
    "p.c | int main() { int i = 0;\n#pragma dswp\nwhile (6 / (2 - i)) { i = i + 1; } } => region 1\nruns 2 2 2\nruns 3 2 0\nflow 3 2 carried 1\nflow 3 3 carried 1\n",
    "p.c | int n = 2; int main() {\n#pragma dswp\nwhile (6 / n) { n = n - 1; } } => region 1\nruns 1 2 2\nruns 2 2 0\nflow 2 1 carried 1\nflow 2 2 carried 1\n",
    "p.c in.txt | int s; int main() { int i = 0;\n#pragma dswp\nwhile (i < 4) { s = s + input[i]; i = i + 1; } } | 7 8 => region 1\nruns 2 3 3\nruns 3 2 0\nruns 4 2 0\nflow 3 3 carried 1\nflow 4 2 carried 2\nflow 4 3 carried 1\nflow 4 4 carried 1\n",
];

/// To the end of their fuel.
const SPENT: &[&str] = &[
    "p.c --fuel 0 | int main() { print(1); } => ",
    "sum_loop.c --fuel 0 => region 1\nruns 2 0 0\nruns 3 0 0\nruns 4 0 0\nruns 5 0 0\n",
    "sum_loop.c --fuel 9 => region 1\nruns 2 2 2\nruns 3 2 0\nruns 4 2 0\nruns 5 2 0\nflow 3 3 carried 1\nflow 3 4 intra 2\nflow 5 2 carried 1\nflow 5 3 carried 1\nflow 5 5 carried 1\n",
    "sum_loop.c --fuel 10 => region 1\nruns 2 3 3\nruns 3 2 0\nruns 4 2 0\nruns 5 2 0\nflow 3 3 carried 1\nflow 3 4 intra 2\nflow 5 2 carried 2\nflow 5 3 carried 1\nflow 5 5 carried 1\n",
    "p.c --fuel 9 | int s; int t; int main() { int i = 0; s = 4;\n#pragma dswp\nwhile (i < 2) { s = s + i; i = i + 1; }\nt = s;\n#pragma dswp\nwhile (i < 4) { t = t + s; i = i + 1; } } => region 1\nruns 3 3 2\nruns 4 2 0\nruns 5 2 0\nflow 4 4 carried 1\nflow 5 3 carried 2\nflow 5 4 carried 1\nflow 5 5 carried 1\nregion 2\nruns 7 0 0\nruns 8 0 0\nruns 9 0 0\n",
];

/// The program's refusal comes before the input's.
const REFUSED: &[&str] = &[
    "profile p.c $1 | $2 | $3 => $1\n",
    "in.txt | int main() { } | 1 x => refused input word 2",
    "in.txt | int main() { | x => refused program syntax token 5",
    "in.txt | int main() { x = 1; } | x => refused program unknown line 1",
    "in.txt | int a[65537]; int main() { } | x => limit cells 65537",
    "in.txt | int main() { } | `65537*0 ` => limit input-words 65537",
    "none.txt | int main() { x = 1; } => refused program unknown line 1",
    "none.txt | int main() { } => failed read input",
];

/// Each run shows what stands beside it, and its profile comes with this status.
fn each_shown<R: Abort + Threads + Wait + Clock + Sync>(
    rt: &R,
    alloc: Global,
    table: &[&str],
    status: u8,
) -> Result<(), Fail> {
    for row in table {
        let (front, shown) = cut(row, " => ");
        let (words, texts) = cut(front, " | ");
        let (program, input) = cut(texts, " | ");
        let held = [("p.c", program.as_bytes()), ("in.txt", input.as_bytes())];
        let words = format!(in alloc; "profile {words}")?;
        let text = format!(in alloc; "profile 1\n{shown}end\n")?;
        let answered = answer_to(rt, alloc, &words, &held, &[], None)?;
        expect(rt, &answered, text.as_bytes(), status, &words, "");
        assert_eq!(rt; answered.committed, 0);
    }
    Ok(())
}

#[test]
fn runs_show_their_profiles(rt: HostRuntime) -> Result<(), Fail> {
    each_shown(&rt, rt.alloc(), DONE, 0)?;
    each_shown(&rt, rt.alloc(), FAULTY, 1)?;
    each_shown(&rt, rt.alloc(), SPENT, 8)?;
    each(&rt, rt.alloc(), REFUSED)?;
    Ok(())
}

#[test]
fn a_profile_that_is_written_is_taken(rt: HostRuntime) -> Result<(), Fail> {
    let input: [(&str, &[u8]); 1] = [("in.txt", b"5 6 7")];
    let words = "profile skip_negative.c in.txt";
    let written = answer_to(&rt, rt.alloc(), words, &input, &[], None)?;
    let profile = [("shown.txt", written.sink.bytes())];
    let words = "plan skip_negative.c --profile shown.txt --stages 2";
    let plans = answer_to(&rt, rt.alloc(), words, &profile, &[], None)?;
    let text = b"plan 2\nregion 1 words 4096\nseq 2 6\nseq 3 4 5 7\nend\n";
    expect(&rt, &plans, text, 0, "", "");
    Ok(())
}
