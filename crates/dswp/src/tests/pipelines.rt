//! Regions under plans of several stages: which iterations are executed again, and that nothing else of the text depends on the
//! plan, the workers or the lanes.
use super::{answer_to, each_crew};
use std::test::Fail;

/// The program, the rest of its region's line with the stages, and the input.
const SEQUENTIAL: &[&str] = &[
    "run $1 in.txt --plan plan.txt |  | $3 | plan 1\nregion 1 words $2end\n => $1\n",
    "sum_loop.c | 4096\nseq 2 5\nseq 3 4\n => 0\n1\n3\nstate\ns 3\nregion 1 iterations 4 recovered 0\nend done",
    "sum_loop.c | 16\nseq 2 5\nseq 3\nseq 4\n => 0\n1\n3\nstate\ns 3\nregion 1 iterations 4 recovered 0\nend done",
    "sum_loop.c | 16\nseq 2\nseq 4\nseq 3\nseq 5\n => 0\n1\n3\nstate\ns 3\nregion 1 iterations 4 recovered 2: 1 2\nend done",
    "zero_divisor.c | 4096\nseq 2 4\nseq 3\n => state\nq 12\nregion 1 iterations 4 recovered 1: 3\nend fault divide line 6",
    "stale_read.c | 4096\nseq 2 3 4\nseq 5\n => state\na 0 0 1 2 3 4 5 6\ns 10\nregion 1 iterations 7 recovered 2: 2 5\nend done",
    "stale_read.c | 4096\nseq 2 3 5\nseq 4\n => state\na 0 0 1 2 3 4 5 6\ns 10\nregion 1 iterations 7 recovered 6: 0 1 2 3 4 5\nend done",
    "same_value.c | 4096\nseq 2 3 4\nseq 5\n => state\na 0 0 0 0 0 0 0 0\ns 0\nregion 1 iterations 7 recovered 0\nend done",
    "two_stores.c | 4096\nseq 2 4 5\nseq 3\n => state\na 2\nregion 1 iterations 4 recovered 0\nend done",
    "stale_step.c | 64\nseq 2 3 4 5 8\nseq 6 7\n => state\nstep 2\nt 12\nregion 1 iterations 4 recovered 1: 1\nend done",
    "stale_step.c | 20\nseq 2 3 4 5 8\nseq 6 7\n => state\nstep 2\nt 12\nregion 1 iterations 4 recovered 1: 1\nend done",
    "stale_step.c | 19\nseq 2 3 4 5 8\nseq 6 7\n => state\nstep 2\nt 12\nregion 1 iterations 4 recovered 2: 1 2\nend done",
    "stale_divisor.c | 4096\nseq 2 3 4 6\nseq 5\n => state\nstep 2\nt 12\nregion 1 iterations 4 recovered 1: 1\nend done",
    "stale_bound.c | 4096\nseq 2 6\nseq 3 4 5\n => state\nlim 4\nn 6\nregion 1 iterations 5 recovered 2: 1 3\nend done",
    "past_the_end.c | 4096\nseq 1\nseq 2 3 4\n => state\ngo 0\nn 3\nregion 1 iterations 4 recovered 1: 3\nend done",
];

const SKIPPING: &[&str] = &[
    "run skip_negative.c in.txt --plan $1 |  | $2 | plan 1\nregion 1 words 4096\nseq 2 6\nseq 3 4 5 7\nend\n => state\nn $1\nend done\n",
    "skip.plan |  => 0\nregion 1 iterations 1 recovered 0",
    "skip.plan | 5 -1 7 8 => 12\nregion 1 iterations 4 recovered 1: 1",
    "skip.plan | -1 5 3 => 2\nregion 1 iterations 3 recovered 1: 0",
    "skip.plan | -1 -1 -1 -1 => -2\nregion 1 iterations 3 recovered 2: 0 1",
    "skip.plan | -9223372036854775808 => -9223372036854775808\nregion 1 iterations 2 recovered 1: 0",
    "plan.txt | 5 -1 7 8 => 12\nregion 1 iterations 4 recovered 1: 1",
    "plan.txt | 5 6 7 => 18\nregion 1 iterations 4 recovered 0",
];

/// Replicated stages: one after the source of the work, one on each side of a sequential one, one that stores what it loads.
const REPLICATED: &[&str] = &[
    "run $1 in.txt --plan plan.txt |  | $3 | plan 1\nregion 1 words 4096\n$2end\n => $1\n",
    "histogram.c | seq 2 3 4\npar 5\nseq 6\n | 0 1 2 3 4 5 6 => state\nh 2 2 1 2\nregion 1 iterations 8 recovered 0\nend done",
    "histogram.c | seq 2 4\npar 3\nseq 5\npar 6\n | 0 1 2 3 4 5 6 => state\nh 2 2 1 2\nregion 1 iterations 8 recovered 1: 4\nend done",
    "histogram.c | seq 2 3 4\npar 5\nseq 6\n | `20*0 1 2 3 4 5 6 ` => state\nh 40 40 20 40\nregion 1 iterations 141 recovered 0\nend done",
    "mixed_histogram.c | seq 2 3 4\npar 5 6 7 8 9 10\nseq 11\n | 0 1 2 -7 4 5 6 => state\nh 0 2 3 2\nregion 1 iterations 8 recovered 0\nend done",
    "sum_loop.c | seq 2 5\npar 3 4\n |  => 0\n1\n3\nstate\ns 3\nregion 1 iterations 4 recovered 1: 2\nend done",
];

/// Version 2 leaves out the checks that accesses by even strides don't need.
const FAR: &[&str] = &[
    "run $1 --plan plan.txt |  |  | plan $2end\n => $1\n",
    "far_reads.c | 1\nregion 1 words 16\nseq 3 4 5 6 7 9\nseq 8\n => state\na 1 2 3 4 5 6 7 8 0\ns 28\nregion 1 iterations 9 recovered 8: 0 1 2 3 4 5 6 7\nend done",
    "far_reads.c | 2\nregion 1 words 16\nseq 3 4 5 6 7 9\nseq 8\n => state\na 1 2 3 4 5 6 7 8 0\ns 28\nregion 1 iterations 9 recovered 0\nend done",
    "near_reads.c | 1\nregion 1 words 4096\nseq 2 3 4\nseq 5\n => state\na 0 7 7 7 7\ns 21\nregion 1 iterations 5 recovered 2: 1 3\nend done",
    "near_reads.c | 2\nregion 1 words 4096\nseq 2 3 4\nseq 5\n => state\na 0 7 7 7 7\ns 21\nregion 1 iterations 5 recovered 2: 1 3\nend done",
    "skip_negative.c | 2\nregion 1 words 4096\nseq 2 5 6\nseq 3 4 7\nassume 4 0\n => state\nn 0\nregion 1 iterations 1 recovered 0\nend done",
    "stale_read.c | 2\nregion 1 words 4096\nseq 2 3 4\nseq 5\n => state\na 0 0 1 2 3 4 5 6\ns 10\nregion 1 iterations 7 recovered 2: 2 5\nend done",
];

/// The fuel, and how far the region comes in stages.
const FUEL: &[&str] = &[
    "run sum_loop.c --plan plan.txt --fuel $1 |  |  | plan 1\nregion 1 words 4096\nseq 2 5\nseq 3 4\nend\n => $1\n",
    "0 => state\ns 0\nend fuel",
    "9 => 0\n1\nstate\ns 1\nregion 1 iterations 2 recovered 0\nend fuel",
    "10 => 0\n1\nstate\ns 1\nregion 1 iterations 3 recovered 1: 2\nend fuel",
    "13 => 0\n1\n3\nstate\ns 3\nregion 1 iterations 3 recovered 0\nend fuel",
    "14 => 0\n1\n3\nstate\ns 3\nregion 1 iterations 4 recovered 0\nend done",
];

#[test]
fn each_crew_gives_the_same_text(rt: HostRuntime) -> Result<(), Fail> {
    for table in [SEQUENTIAL, SKIPPING, REPLICATED, FAR, FUEL] {
        each_crew(&rt, rt.alloc(), table)?;
    }
    Ok(())
}

/// Words, an input, and how many iterations are committed from the pipeline.
const COMMITTED: [(&str, &str, u64); 4] = [
    ("run stale_read.c --plan stale.plan", "", 5),
    ("run same_value.c --plan stale.plan", "", 7),
    ("run skip_negative.c in.txt --plan skip.plan", "5 -1 7 8", 3),
    ("run stale_divisor.c --plan plan.txt", "", 3),
];

#[test]
fn committed_iterations_are_counted(rt: HostRuntime) -> Result<(), Fail> {
    let plan = b"plan 1\nregion 1 words 4096\nseq 2 3 4 6\nseq 5\nend\n";
    for (words, input, committed) in COMMITTED {
        let held = [("in.txt", input.as_bytes()), ("plan.txt", plan.as_slice())];
        let answered = answer_to(&rt, rt.alloc(), words, &held, &[], None)?;
        assert_eq!(&rt; answered.committed, committed, "{words}");
    }
    Ok(())
}
