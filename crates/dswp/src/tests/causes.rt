//! Why iterations are executed again.
use super::{each, each_crew};
use std::test::Fail;

/// The program, the rest of its region's line with the stages, and the input: a load, words, a fault, an assumption.
const CAUSES: &[&str] = &[
    "run $1 in.txt --plan plan.txt --why |  | $3 | plan 1\nregion 1 words $2end\n => $1\n",
    "stale_read.c | 4096\nseq 2 3 4\nseq 5\n => state\na 0 0 1 2 3 4 5 6\ns 10\nregion 1 iterations 7 recovered 2: 2 5\ncause 2 load site 3 cell 2 seen 0 source 1\ncause 5 load site 3 cell 5 seen 0 source 4\nend done",
    "stale_step.c | 64\nseq 2 3 4 5 8\nseq 6 7\n => state\nstep 2\nt 12\nregion 1 iterations 4 recovered 1: 1\ncause 1 load site 5 cell 0 seen 0 source 2\nend done",
    "stale_step.c | 19\nseq 2 3 4 5 8\nseq 6 7\n => state\nstep 2\nt 12\nregion 1 iterations 4 recovered 2: 1 2\ncause 1 load site 5 cell 0 seen 0 source 2\ncause 2 words stage 1 site 8\nend done",
    "stale_divisor.c | 4096\nseq 2 3 4 6\nseq 5\n => state\nstep 2\nt 12\nregion 1 iterations 4 recovered 1: 1\ncause 1 load site 4 cell 0 seen 0 source 2\nend done",
    "zero_divisor.c | 4096\nseq 2 4\nseq 3\n => state\nq 12\nregion 1 iterations 4 recovered 1: 3\ncause 3 fault divide line 6\nend fault divide line 6",
    "early_exit.c | 4096\nseq 2 6\nseq 3 4 5\n | 5 -1 7 => state\nn 5\nregion 1 iterations 2 recovered 1: 1\ncause 1 assume site 4\nend done",
    "stale_bound.c | 4096\nseq 2 6\nseq 3 4 5\n => state\nlim 4\nn 6\nregion 1 iterations 5 recovered 2: 1 3\ncause 1 load site 2 cell 0 seen 1 source 2\ncause 3 load site 2 cell 0 seen 3 source 4\nend done",
    "stale_bound.c | 4096\nseq 2 6\npar 3 4 5\n => state\nlim 4\nn 6\nregion 1 iterations 5 recovered 2: 1 3\ncause 1 load site 2 cell 0 seen 1 source 2\ncause 3 load site 2 cell 0 seen 3 source 4\nend done",
    "past_the_end.c | 4096\nseq 1\nseq 2 3 4\n => state\ngo 0\nn 3\nregion 1 iterations 4 recovered 1: 3\ncause 3 load site 1 cell 0 seen 1 source 0\nend done",
    "past_the_end.c | 4096\nseq 1\npar 2 3 4\n => state\ngo 0\nn 3\nregion 1 iterations 4 recovered 2: 1 3\ncause 1 load site 2 cell 1 seen 0 source 1\ncause 3 load site 1 cell 0 seen 1 source 0\nend done",
    "same_value.c | 4096\nseq 2 3 4\nseq 5\n => state\na 0 0 0 0 0 0 0 0\ns 0\nregion 1 iterations 7 recovered 0\nend done",
];

/// A condition that goes otherwise than assumed.
const ASSUMED: &[&str] = &[
    "run skip_negative.c in.txt --plan skip.plan --why |  | $1 |  => state\nn $1\nend done\n",
    "5 -1 7 8 => 12\nregion 1 iterations 4 recovered 1: 1\ncause 1 assume site 4",
    "-1 -1 -1 -1 => -2\nregion 1 iterations 3 recovered 2: 0 1\ncause 0 assume site 4\ncause 1 assume site 4",
    "5 6 7 => 18\nregion 1 iterations 4 recovered 0",
];

/// The fuel ends within an iteration.
const SPENT: &[&str] = &[
    "run sum_loop.c --plan plan.txt --fuel $1 --why |  |  | plan 1\nregion 1 words 4096\nseq 2 5\nseq 3 4\nend\n => $1\n",
    "10 => 0\n1\nstate\ns 1\nregion 1 iterations 3 recovered 1: 2\ncause 2 fuel\nend fuel",
    "14 => 0\n1\n3\nstate\ns 3\nregion 1 iterations 4 recovered 0\nend done",
];

/// Of a load, an assumption and the words that fail in one iteration the first event's counts, and in this order at one event.
/// In the last row a packet is void before the second stage has said anything.
const FIRST: &[&str] = &[
    "run p.c --plan plan.txt --why | int last; int m; int n; int main() { int i = 0;\n#pragma dswp\nwhile (i < 4) { if (i > 0) { $1} if (last > 0) { n = n + 5; } i = i + 1; last = i; $2} } |  | plan 1\nregion 1 words $3end\n => state\nlast 4\nm $1\nn 15\nregion 1 iterations 5 recovered $2\n$3end done\n",
    "`15*m = m + 1; ` |  | 16\nseq 2 3 20 21\nseq 4 5 6 7 8 9 10 11 12 13 14 15 16 17 18 19\nseq 22\nassume 19 0\n => 45 | 3: 1 2 3 | cause 1 load site 19 cell 0 seen 0 source 1\ncause 2 assume site 19\ncause 3 assume site 19\n",
    "`15*m = m + 1; ` |  | 16\nseq 2 3 20 21\nseq 4 5 6 7 8 9 10 11 12 13 14 15 16 17 18 19\nseq 22\nassume 19 1\n => 45 | 4: 0 1 2 3 | cause 0 assume site 19\ncause 1 words stage 2 site 19\ncause 2 words stage 2 site 19\ncause 3 words stage 2 site 19\n",
    "`14*m = m + 1; ` |  | 16\nseq 2 3 19 20\nseq 4 5 6 7 8 9 10 11 12 13 14 15 16 17 18\nseq 21\nassume 18 1\n => 42 | 2: 0 2 | cause 0 assume site 18\ncause 2 load site 18 cell 0 seen 1 source 2\n",
    "`17*m = m + 1; ` |  | 16\nseq 2 3 22 23\nseq 4 5 6 7 8 9 10 11 12 13 14 15 16 17 18 19 20 21\nseq 24\nassume 21 0\n => 51 | 3: 1 2 3 | cause 1 words stage 2 site 20\ncause 2 words stage 2 site 20\ncause 3 words stage 2 site 20\n",
    " | if (i > 1) { `12*n = n + 0; `}  | 16\nseq 2 3 5 6 8 9 10 11 12 13 14 15 16 17 18 19 20\nseq 4\nseq 7\nassume 4 0\n => 0 | 3: 1 2 3 | cause 1 load site 4 cell 0 seen 0 source 1\ncause 2 assume site 4\ncause 3 assume site 4\n",
    " | if (i > 2) { `12*n = n + 0; `}  | 16\nseq 2 3 5 6 8 9 10 11 12 13 14 15 16 17 18 19 20\nseq 4\nseq 7\nassume 4 1\n => 0 | 3: 0 2 3 | cause 0 assume site 4\ncause 2 load site 4 cell 0 seen 1 source 2\ncause 3 words stage 1 site 20\n",
];

/// 1,000 iterations are listed at most, each with its cause.
const LISTED: &[&str] = &[
    "run p.c --plan plan.txt --why | int i; int main() {\n#pragma dswp\nwhile (i < 1001) { i = i + 1; $1} } |  | plan 1\nregion 1 words 16\n$2end\n => state\ni 1001\n$1end done\n",
    "`16*i = i + 0; ` | seq`18* ^`\n => region 1 iterations 1002 recovered 1001:`1000* @`\n`1000*cause @ words stage 1 site 17\n`",
];

#[test]
fn each_crew_tells_the_same_cause(rt: HostRuntime) -> Result<(), Fail> {
    for table in [CAUSES, ASSUMED, SPENT, FIRST] {
        each_crew(&rt, rt.alloc(), table)?;
    }
    Ok(())
}

#[test]
fn listed_iterations_have_their_causes(rt: HostRuntime) -> Result<(), Fail> {
    each(&rt, rt.alloc(), LISTED)?;
    Ok(())
}
