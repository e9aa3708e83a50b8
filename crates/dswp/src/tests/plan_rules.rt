//! Plans that break a rule: the first rule that is broken, and the least site at which it is.
use super::each;
use std::test::Fail;

/// Sites 2 to 11: the inner `while` 6 has 7 and 8 inside, the `if` 9 has 10 inside. First each rule broken alone, then
/// beside a later one, then at several sites.
const MIXED: &[&str] = &[
    "run mixed_histogram.c --plan plan.txt |  |  | plan 1\nregion 1 words 4096\n$1end\n => refused plan rule $1 site $2\n",
    "seq 2 3 4\npar 5 6 7 8 9\nseq 11\n => 1 | 10",
    "seq 2 3 4\npar 5 6 7 8 9 10\nseq 4 11\n => 2 | 4",
    "seq 1 2 3 4\npar 5 6 7 8 9 10\nseq 11\n => 3 | 1",
    "seq 3 4\npar 2 5 6 7 8 9 10\nseq 11\n => 4 | 2",
    "par 2 3 4\nseq 5 6 7 8 9 10\nseq 11\n => 5 | 2",
    "seq 2 3 4\npar 5 6 7 8 9 10\npar 11\n => 6 | 11",
    "seq 2 3 4\npar 5 7 8 9 10\nseq 6 11\n => 7 | 6",
    "seq 2 3 4\npar 5 6 7 8 10\nseq 9 11\n => 8 | 9",
    "seq 2 3 4\npar 5 6 7 8 9 10\nseq 11\nassume 6 0\n => 9 | 6",
    "seq 2 3 4\npar 5 6 7 8 9 10\nseq 11\nassume 9 0\nassume 9 0\n => 9 | 9",
    "seq 2 3 4\npar 5 6 7 8 9\nseq 4 11\n => 1 | 10",
    "seq 2 3 4\npar 5 6 7 8 9 10 12\nseq 11 12\n => 2 | 12",
    "seq 1 3 4\npar 2 5 6 7 8 9 10\nseq 11\n => 3 | 1",
    "par 3 4\nseq 2 5 6 7 8 9 10\nseq 11\n => 4 | 2",
    "par 2 3 4\npar 5 6 7 8 9 10\nseq 11\n => 5 | 2",
    "seq 2 3 4\npar 5 7 8 9 10\npar 6 11\n => 6 | 6",
    "seq 2 3 4\npar 5 7 8 10\nseq 6 9 11\n => 7 | 6",
    "seq 2 3 4\npar 5 6 7 8 10\nseq 9 11\nassume 6 0\n => 8 | 9",
    "seq 2 3 4\npar 6 7 9\nseq 11\n => 1 | 5",
    "seq 2 3 4\npar 5 6 7 8 9 10\nseq 2 4 10 11\n => 2 | 2",
    "seq 2 3 4\npar 5 6 7 8 10\npar 9 11\npar 1\n => 3 | 1",
    "seq 2 3 4\npar 5 6 7 8\npar 10 11\npar 9\n => 6 | 10",
    "seq 2 3 4\npar 5 6 7 8 9 10\nseq 11\nassume 10 1\nassume 8 0\nassume 9 0\n => 9 | 8",
    "seq 2 3 4\npar 5 6 7 8 9 10\nseq 11\nassume 9 1\nassume 11 0\nassume 9 0\n => 9 | 9",
    "seq 2 3 4\npar 5 6 7 8 9 10\nseq 11\nassume 2 1\n => 9 | 2",
    "seq 2 3 4\npar 5 6 7 8 9 10\nseq 11\nassume 12 1\nassume 4294967295 1\n => 9 | 12",
    "seq`149000* ^`\n => 3 | 1",
];

const OTHERS: &[&str] = &[
    "run $1 --plan plan.txt |  |  | plan 1\nregion 1 words 4096\n$2end\n => refused plan rule $1 site $2\n",
    "histogram.c | seq 2 3 4\npar 5\npar 6\n => 6 | 6",
    "histogram.c | seq 2 3 4\npar 5\n => 1 | 6",
    "stale_step.c | seq 2 3 5 6 7 8\nseq 4\n => 7 | 4",
    "skip_negative.c | seq 2 5 6\nseq 3 4 7\n => 8 | 4",
    "skip_negative.c | seq 2 5 6\nseq 2 5 6\nseq 3 4 7\nassume 4 0\n => 2 | 2",
    "skip_negative.c | seq 2 5 6\nseq 3 4 7\nseq 3 4 7\nassume 4 0\n => 2 | 3",
    "skip_negative.c | seq 2 5 6\nseq 3 4 7\nassume 4 0\nassume 4 0\n => 9 | 4",
    "skip_negative.c | seq 2 5 6\nseq 3 4 7\nassume 4 0\nassume 4 1\n => 9 | 4",
    "early_exit.c | seq 2 6\nseq 3 4 5\nassume 4 0\n => 9 | 4",
    "early_exit.c | seq 2 3 4 6\nseq 5\nassume 4 1\n => 9 | 4",
];

/// Region 1 has the `if` 3 inside the `if` 2, with site 4; region 2 the `if` 7 inside the `while` 6, with site 8.
const DEEP: &[&str] = &[
    "run p.c --plan plan.txt | int i; int main() {\n#pragma dswp\nwhile (i < 1) { if (i < 1) { if (i < 1) { i = i + 1; } } }\n#pragma dswp\nwhile (i < 2) { while (i < 2) { if (i < 2) { i = i + 1; } } } } |  | plan 1\nregion 1 words 16\nseq 1 4\nseq 2 3\n$1region 2 words 16\n$2end\n => refused plan rule $1 site $2\n",
    "assume 3 1\n | seq 5 6 8\nseq 7\nassume 7 0\n => 8 | 2",
    "assume 2 0\n | seq 5 6 8\nseq 7\nassume 7 0\n => 8 | 3",
    " | seq 5 6 8\nseq 7\nassume 7 0\n => 8 | 2",
    "assume 2 0\nassume 3 1\n | seq 5 8\nseq 6 7\nassume 7 0\n => 7 | 6",
    "assume 2 0\nassume 3 1\n | seq 5 6 8\nseq 7\n => 8 | 7",
    "assume 3 1\nassume 2 0\n | seq 5 6 7 8\nassume 3 1\n => 9 | 3",
];

#[test]
fn the_first_broken_rule_is_named(rt: HostRuntime) -> Result<(), Fail> {
    for table in [MIXED, OTHERS, DEEP] {
        each(&rt, rt.alloc(), table)?;
    }
    Ok(())
}
