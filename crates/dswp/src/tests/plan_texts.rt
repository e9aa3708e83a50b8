//! Texts of plans that are refused: the number of the first line with which no text goes on.
use super::each;
use std::test::Fail;

/// What stands before the line of the region.
const FIRST_LINES: &[&str] = &[
    "run skip_negative.c in.txt --plan plan.txt |  | 5 -1 7 8 | $1region 1 words 4096\nseq 2 5 6\nseq 3 4 7\nassume 4 0\nend\n => refused plan line $1\n",
    "plan 3\n => 1",
    "plan 0\n => 1",
    "plan 01\n => 1",
    "plan 02\n => 1",
    "plan 11\n => 1",
    "plan  1\n => 1",
    " plan 1\n => 1",
    "plan 1 \n => 1",
    "plan 1\r\n => 1",
    "plan 1\t\n => 1",
    "Plan 1\n => 1",
    "plan\n => 1",
    "plan\n1\n => 1",
    "\nplan 1\n => 1",
    " => 1",
    "plan 1\nplan 1\n => 2",
    "plan 1\nplan 2\n => 2",
    "plan 2\nplan 2\n => 2",
    "plan 1\n\n => 2",
];

/// What stands between the first line and the stages.
const REGIONS: &[&str] = &[
    "run skip_negative.c --plan plan.txt |  |  | plan 1\n$1seq 2 5 6\nseq 3 4 7\nassume 4 0\nend\n => refused plan line $1\n",
    " => 2",
    "region 2 words 4096\n => 2",
    "region 0 words 4096\n => 2",
    "region 01 words 4096\n => 2",
    "region 4294967297 words 4096\n => 2",
    "region 1 words 4097\n => 2",
    "region 1 words 15\n => 2",
    "region 1 words 016\n => 2",
    "region 1 words 18446744073709551632\n => 2",
    "region 1 words\n => 2",
    "region 1 words 16 16\n => 2",
    "region 1 word 4096\n => 2",
    "region 1  words 4096\n => 2",
    "region 1 words 4096\r\n => 2",
    "region 1 words 4096\nregion 1 words 4096\n => 3",
    "region 1 words 4096\nassume 4 0\n => 3",
    "region 1 words 4096\nend\n => 3",
    "region 1 words 4096\n\n => 3",
];

/// What stands between the region's line and the assumption.
const STAGES: &[&str] = &[
    "run skip_negative.c --plan plan.txt |  |  | plan 2\nregion 1 words 16\n$1assume 4 0\nend\n => refused plan line $1\n",
    "seq 2 5 5\nseq 3 4 7\n => 3",
    "seq 2 6 5\nseq 3 4 7\n => 3",
    "seq 0 2 5 6\nseq 3 4 7\n => 3",
    "seq\nseq 3 4 7\n => 3",
    "seq 2 5 6 4294967296\nseq 3 4 7\n => 3",
    "seq 2 5 6 18446744073709551623\nseq 3 4 7\n => 3",
    "sep 2 5 6\nseq 3 4 7\n => 3",
    "seq 2 5 +6\nseq 3 4 7\n => 3",
    "seq 2 5 06\nseq 3 4 7\n => 3",
    "seq 2 5 6x\nseq 3 4 7\n => 3",
    "seq 2 5 6 \nseq 3 4 7\n => 3",
    "seq 2 5 6\nseq 3  4 7\n => 4",
    "seq 2 5 6\npar\n => 4",
    "seq 2\nseq 3\nseq 4\nseq 5\nseq 6\nseq 7\nseq 8\nseq 9\nseq 10\n => 11",
];

/// What stands behind the stages.
const ENDS: &[&str] = &[
    "run skip_negative.c --plan plan.txt |  |  | plan 1\nregion 1 words 4096\nseq 2 5 6\nseq 3 4 7\n$1 => refused plan line $1\n",
    " => 5",
    "assume 4 2\nend\n => 5",
    "assume 0 0\nend\n => 5",
    "assume 4 00\nend\n => 5",
    "assume 4\nend\n => 5",
    "assume 4 0 0\nend\n => 5",
    "assume 4 -1\nend\n => 5",
    "assume 4 0\nseq 9\nend\n => 6",
    "assume 4 0\nregion 2 words 16\nend\n => 6",
    "assume 4 0\nend => 6",
    "assume 4 0\n => 6",
    "assume 4 0\nEnd\n => 6",
    "assume 4 0\nend\n\n => 7",
    "assume 4 0\nend\nend\n => 7",
    "assume 4 0\nend\n  => 7",
];

/// A program without regions has a text of two lines, one with a region none of these.
const WITHOUT_REGIONS: &[&str] = &[
    "run $1 --plan plan.txt | int main() { } |  | $2 => $1\n",
    "p.c | plan 1\nend\n => state\nend done",
    "p.c | plan 2\nend\n => state\nend done",
    "p.c |  => refused plan line 1",
    "p.c | plan 1\nregion 1 words 16\n => refused plan line 2",
    "p.c | plan 1\nassume 1 0\nend\n => refused plan line 2",
    "p.c | plan 1\n => refused plan line 2",
    "p.c | plan 1\nend\n\n => refused plan line 3",
    "sum_loop.c | plan 1\nend\n => refused plan line 2",
    "sum_loop.c | plan 2\nend\n => refused plan line 2",
    "sum_loop.c | plan 3\nregion 1 words 4096\nseq 2 3 4 5\nend\n => refused plan line 1",
    "histogram.c | plan 1\nregion 1 words 15\nseq 2 3 4\npar 5\nseq 6\nend\n => refused plan line 2",
];

/// Three regions, each with an `if` around a loop.
const THREE_REGIONS: &[&str] = &[
    "run p.c --plan plan.txt | int i; int main() { `3*#pragma dswp\nwhile (i < ^) { if (i < ^) { while (i < ^) { i = i + 1; } } }`} |  | plan 1\nregion 1 words 16\nseq 1 2 3 4\n$1 => $1\n",
    "region 2 words 4096\nseq 5 6\npar 7 8\nregion 3 words 17\nseq 9 10 11\nseq 12\nend\n => state\ni 3\nregion 1 iterations 2 recovered 0\nregion 2 iterations 2 recovered 1: 1\nregion 3 iterations 2 recovered 1: 0\nend done",
    "region 3 words 16\nseq 5 6 7 8\nend\n => refused plan line 4",
    "region 2 words 16\nseq 5 6 7 8\nend\n => refused plan line 6",
    "region 2 words 16\nseq 5 6 7 8\nregion 3 words 16\nend\n => refused plan line 7",
    "region 2 words 16\nseq 5 6 7 8\nregion 3 words 16\nseq 9 10 11 12\nregion 4 words 16\nend\n => refused plan line 8",
    "assume 3 0\nregion 2 words 16\nseq 5 6\nregion 3 words 16\nseq 9\nend\n => refused plan rule 9 site 3",
    "region 2 words 4096\nseq 5 6\npar 7\nregion 3 words 17\nseq 9 10 11 12\nend\n => refused plan rule 1 site 8",
    "region 2 words 4096\nseq 5 6\npar 7 8 13\nregion 3 words 17\nseq 10 11\nend\n => refused plan rule 3 site 13",
    "region 2 words 4096\nseq 5 6\npar 7 8\nregion 3 words 17\nseq 9 10 11\nseq 12 13\nend\n => refused plan rule 3 site 13",
    "region 2 words 4096\nseq 5 6\npar 7 8\nregion 3 words 17\nseq 9 11 12\nseq 10\nend\n => refused plan rule 8 site 10",
    "region 2 words 4096\nseq 5 6\npar 7 8\nregion 3 words 17\nseq 9 12\nseq 10 11\nend\n => refused plan rule 7 site 11",
];

#[test]
fn the_first_wrong_line_of_a_plan(rt: HostRuntime) -> Result<(), Fail> {
    for table in [
        FIRST_LINES,
        REGIONS,
        STAGES,
        ENDS,
        WITHOUT_REGIONS,
        THREE_REGIONS,
    ] {
        each(&rt, rt.alloc(), table)?;
    }
    Ok(())
}
