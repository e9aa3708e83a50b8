//! Runs that are saved before an iteration and gone on with, and the texts of checkpoints.
use super::{each, each_crew};
use std::test::Fail;

/// Stage 2 stores what stage 1 loads two iterations later: the region, the iteration, and what is written.
const STALE: &[&str] = &[
    "save stale_read.c --plan stale.plan --region $1 --after $2 => $1\n",
    "1 | 0 => checkpoint 1\nregion 1 after 0 steps 1 fuel 10000000\ncells 0 0 0 0 0 0 0 0 0 0\nreport 1 iterations 0 recovered 0\nend",
    "1 | 3 => checkpoint 1\nregion 1 after 3 steps 13 fuel 10000000\ncells 0 0 1 2 3 0 0 0 1 3\nreport 1 iterations 3 recovered 1: 2\nend",
    "1 | 4 => checkpoint 1\nregion 1 after 4 steps 17 fuel 10000000\ncells 0 0 1 2 3 4 0 0 3 4\nreport 1 iterations 4 recovered 1: 2\nend",
    "1 | 6 => checkpoint 1\nregion 1 after 6 steps 25 fuel 10000000\ncells 0 0 1 2 3 4 5 6 10 6\nreport 1 iterations 6 recovered 2: 2 5\nend",
    "1 | 7 => state\na 0 0 1 2 3 4 5 6\ns 10\nregion 1 iterations 7 recovered 2: 2 5\nend done",
    "1 | 1000000000 => state\na 0 0 1 2 3 4 5 6\ns 10\nregion 1 iterations 7 recovered 2: 2 5\nend done",
    "2 | 0 => state\na 0 0 1 2 3 4 5 6\ns 10\nregion 1 iterations 7 recovered 2: 2 5\nend done",
    "4294967295 | 0 => state\na 0 0 1 2 3 4 5 6\ns 10\nregion 1 iterations 7 recovered 2: 2 5\nend done",
];

/// .. and gone on with from a checkpoint: its second and third line, its report, and the line of the region.
const GONE_ON: &[&str] = &[
    "resume stale_read.c in.txt --plan stale.plan |  | checkpoint 1\nregion 1 after $1\ncells $2\nreport 1 iterations $3\nend\n => $1\n",
    "4 steps 17 fuel 10000000 | 0 0 1 2 3 4 0 0 3 4 | 4 recovered 1: 2 => state\na 0 0 1 2 3 4 5 6\ns 10\nregion 1 iterations 7 recovered 1: 2\nend done",
    "0 steps 1 fuel 10000000 | 0 0 0 0 0 0 0 0 0 0 | 0 recovered 0 => state\na 0 0 1 2 3 4 5 6\ns 10\nregion 1 iterations 7 recovered 2: 2 5\nend done",
    "6 steps 25 fuel 10000000 | 0 0 1 2 3 4 5 6 10 6 | 6 recovered 2: 2 5 => state\na 0 0 1 2 3 4 5 6\ns 10\nregion 1 iterations 7 recovered 2: 2 5\nend done",
    "4 steps 17 fuel 18 | 0 0 1 2 3 4 0 0 3 4 | 4 recovered 1: 2 => state\na 0 0 1 2 3 4 0 0\ns 3\nregion 1 iterations 5 recovered 2: 2 4\nend fuel",
    "4 steps 17 fuel 17 | 0 0 1 2 3 4 0 0 3 4 | 4 recovered 1: 2 => state\na 0 0 1 2 3 4 0 0\ns 3\nregion 1 iterations 4 recovered 1: 2\nend fuel",
    "0 steps 17 fuel 17 | 0 0 1 2 3 4 0 0 3 4 | 0 recovered 0 => state\na 0 0 1 2 3 4 0 0\ns 3\nend fuel",
    "1000000000 steps 1000000000 fuel 1000000000 | -0`9* 0` | 1000000000 recovered 1000000000:`1000* @` => state\na 0 0 0 0 0 0 0 0\ns 0\nregion 1 iterations 1000000000 recovered 1000000000:`1000* @`\nend fuel",
    "5 steps 0 fuel 1000000000 | -0 0 1 2 3 4 0 0 -9223372036854775808 9223372036854775807 | 5 recovered 5: 0 1 2 3 4 => state\na 0 0 1 2 3 4 0 0\ns -9223372036854775808\nregion 1 iterations 6 recovered 5: 0 1 2 3 4\nend done",
];

/// A made-up report with more numbers than are listed: those behind aren't listed either.
const LISTED: &[&str] = &[
    "resume stale_read.c in.txt --plan stale.plan |  | checkpoint 1\nregion 1 after 2000 steps 1 fuel 99\ncells 0 0 0 0 0 0 0 0 0 0\nreport 1 iterations 2000 recovered $1\nend\n => state\na 0 0 1 2 3 4 5 6\ns 10\nregion 1 iterations 2007 recovered $1\nend done\n",
    "1999:`1000* @` => 2001:`1000* @`",
    "1000:`1000* @` => 1002:`1000* @`",
    "999:`999* @` => 1001:`999* @` 2002",
    "0 => 2: 2002 2005",
];

/// Two regions with prints before, between and behind them.
const TWO_REGIONS: &[&str] = &[
    "$1 | int i; int n; int main() { print(7); #pragma dswp while (i < 2) { print(i); i = i + 1; } print(8); #pragma dswp while (n < 2) { int t = n; n = t + 1; } print(9); } | $2 => $1\n",
    "save p.c --region 2 --after 1 => 7\n0\n1\n8\ncheckpoint 1\nregion 2 after 1 steps 12 fuel 10000000\ncells 2 1 0\nreport 1 iterations 3 recovered 0\nreport 2 iterations 1 recovered 0\nend",
    "save p.c --region 2 --after 1 --fuel 12 => 7\n0\n1\n8\ncheckpoint 1\nregion 2 after 1 steps 12 fuel 12\ncells 2 1 0\nreport 1 iterations 3 recovered 0\nreport 2 iterations 1 recovered 0\nend",
    "save p.c --region 2 --after 1 --fuel 11 => 7\n0\n1\n8\nstate\ni 2\nn 0\nregion 1 iterations 3 recovered 0\nregion 2 iterations 1 recovered 1: 0\nend fuel",
    "save p.c --region 1 --after 1 => 7\n0\ncheckpoint 1\nregion 1 after 1 steps 4 fuel 10000000\ncells 1 0 0\nreport 1 iterations 1 recovered 0\nend",
    "resume p.c in.txt | checkpoint 1\nregion 2 after 1 steps 12 fuel 10000000\ncells 2 1 0\nreport 1 iterations 3 recovered 0\nreport 2 iterations 1 recovered 0\nend\n => 9\nstate\ni 2\nn 2\nregion 1 iterations 3 recovered 0\nregion 2 iterations 3 recovered 0\nend done",
    "resume p.c in.txt | checkpoint 1\nregion 1 after 1 steps 4 fuel 10000000\ncells 1 0 0\nreport 1 iterations 1 recovered 0\nend\n => 1\n8\n9\nstate\ni 2\nn 2\nregion 1 iterations 3 recovered 0\nregion 2 iterations 3 recovered 0\nend done",
    "resume p.c in.txt | checkpoint 1\nregion 2 after 0 steps 0 fuel 10\ncells 5 9 0\nreport 1 iterations 7 recovered 1: 6\nreport 2 iterations 0 recovered 0\nend\n => 9\nstate\ni 5\nn 9\nregion 1 iterations 7 recovered 1: 6\nregion 2 iterations 1 recovered 0\nend done",
    "resume p.c in.txt | checkpoint 1\nregion 2 after 0 steps 0 fuel 10\ncells 5 9 0\nreport 1 iterations 0 recovered 0\nreport 2 iterations 0 recovered 0\nend\n => 9\nstate\ni 5\nn 9\nregion 2 iterations 1 recovered 0\nend done",
    "resume p.c in.txt | checkpoint 1\nregion 2 after 0 steps 0 fuel 10\ncells 5 9 0\nreport 2 iterations 0 recovered 0\nend\n => refused checkpoint line 4",
    "resume p.c in.txt | checkpoint 1\nregion 2 after 0 steps 0 fuel 10\ncells 5 9 0\nreport 1 iterations 0 recovered 0\nend\n => refused checkpoint line 5",
    "resume p.c in.txt | checkpoint 1\nregion 1 after 0 steps 0 fuel 10\ncells 5 9 0\nreport 1 iterations 0 recovered 0\nreport 2 iterations 0 recovered 0\nend\n => refused checkpoint line 5",
    "resume p.c in.txt | checkpoint 1\nregion 3 after 0 steps 0 fuel 10\ncells 5 9 0\nreport 1 iterations 0 recovered 0\nreport 2 iterations 0 recovered 0\nend\n => refused checkpoint line 2",
    "resume p.c in.txt | checkpoint 1\nregion 2 after 0 steps 0 fuel 10\ncells 5 9 1\nreport 1 iterations 0 recovered 0\nreport 2 iterations 0 recovered 0\nend\n => refused checkpoint line 3",
];

/// A run that faults, before the place and behind it.
const FAULTS: &[&str] = &[
    "$1 |  | $2 => $1\n",
    "save zero_divisor.c --region 1 --after 4 => state\nq 12\nregion 1 iterations 4 recovered 1: 3\nend fault divide line 6",
    "save zero_divisor.c --region 1 --after 3 => checkpoint 1\nregion 1 after 3 steps 10 fuel 10000000\ncells 12 3\nreport 1 iterations 3 recovered 0\nend",
    "resume zero_divisor.c in.txt | checkpoint 1\nregion 1 after 3 steps 10 fuel 10000000\ncells 12 3\nreport 1 iterations 3 recovered 0\nend\n => state\nq 12\nregion 1 iterations 4 recovered 1: 3\nend fault divide line 6",
];

/// What stands in each line of a checkpoint that is refused there; a `-0` is taken.
const LINES: &[&str] = &[
    "resume stale_read.c in.txt --plan stale.plan |  | $1\nregion $2\nreport 1 $3end\n => $1\n",
    "checkpoint 2 | 1 | 1 => refused checkpoint line 1",
    "checkpoint 01 | 1 | 1 => refused checkpoint line 1",
    "Checkpoint 1 | 1 | 1 => refused checkpoint line 1",
    " checkpoint 1 | 1 | 1 => refused checkpoint line 1",
    "checkpoint 1\r | 1 | 1 => refused checkpoint line 1",
    "checkpoint 1 | 0 after 4 steps 17 fuel 99 |  => refused checkpoint line 2",
    "checkpoint 1 | 2 after 4 steps 17 fuel 99 |  => refused checkpoint line 2",
    "checkpoint 1 | 01 after 4 steps 17 fuel 99 |  => refused checkpoint line 2",
    "checkpoint 1 | 1 after 4 steps 17 |  => refused checkpoint line 2",
    "checkpoint 1 | 1 after 4 steps 17 fuel 99 99 |  => refused checkpoint line 2",
    "checkpoint 1 | 1 after 4 steps -17 fuel 99 |  => refused checkpoint line 2",
    "checkpoint 1 | 1 after 4  steps 17 fuel 99 |  => refused checkpoint line 2",
    "checkpoint 1 | 1 after 4 step 17 fuel 99 |  => refused checkpoint line 2",
    "checkpoint 1 | 1 after 4 steps 10000001 fuel 10000000 |  => refused checkpoint line 2",
    "checkpoint 1 | 1 after 4 steps 17 fuel 1000000001 |  => refused checkpoint line 2",
    "checkpoint 1 | 1 after 1000000001 steps 17 fuel 99 |  => refused checkpoint line 2",
    "checkpoint 1 | 1 after 18446744073709551620 steps 17 fuel 99 |  => refused checkpoint line 2",
    "checkpoint 1 | 1 after 4 steps 17 fuel 99\ncells 0 0 1 2 3 4 0 0 3 |  => refused checkpoint line 3",
    "checkpoint 1 | 1 after 4 steps 17 fuel 99\ncells 0 0 1 2 3 4 0 0 3 4 0 |  => refused checkpoint line 3",
    "checkpoint 1 | 1 after 4 steps 17 fuel 99\ncells 0 0 1 2 3 4 0 0 3 4  |  => refused checkpoint line 3",
    "checkpoint 1 | 1 after 4 steps 17 fuel 99\ncells 0 0 1 2 3 4 0 0 3 04 |  => refused checkpoint line 3",
    "checkpoint 1 | 1 after 4 steps 17 fuel 99\ncells 0 0 1 2 3 4 0 0 3 --4 |  => refused checkpoint line 3",
    "checkpoint 1 | 1 after 4 steps 17 fuel 99\ncells 0 0 1 2 3 4 0 0 3 +4 |  => refused checkpoint line 3",
    "checkpoint 1 | 1 after 4 steps 17 fuel 99\ncells 0 0 1 2 3 4 0 0 3 - |  => refused checkpoint line 3",
    "checkpoint 1 | 1 after 4 steps 17 fuel 99\ncells 0 0 1 2 3 4 0 0 3 9223372036854775808 |  => refused checkpoint line 3",
    "checkpoint 1 | 1 after 4 steps 17 fuel 99\ncells 0 0 1 2 3 4 0 0 3 -9223372036854775809 |  => refused checkpoint line 3",
    "checkpoint 1 | 1 after 4 steps 17 fuel 99\ncells |  => refused checkpoint line 3",
];

/// .. in that of the report, and behind it.
const REPORTS: &[&str] = &[
    "resume stale_read.c in.txt --plan stale.plan |  | checkpoint 1\nregion 1 after 4 steps 17 fuel 99\ncells 0 0 1 2 3 4 0 0 3 4\n$1 => refused checkpoint line $1\n",
    "report 2 iterations 4 recovered 0\nend\n => 4",
    "report 1 iterations 3 recovered 0\nend\n => 4",
    "report 1 iterations 5 recovered 0\nend\n => 4",
    "report 1 iterations 04 recovered 0\nend\n => 4",
    "report 1 iterations 4 recovered\nend\n => 4",
    "report 1 iterations 4 recovered 0:\nend\n => 4",
    "report 1 iterations 4 recovered 1\nend\n => 4",
    "report 1 iterations 4 recovered 1:\nend\n => 4",
    "report 1 iterations 4 recovered 1:2\nend\n => 4",
    "report 1 iterations 4 recovered 1 : 2\nend\n => 4",
    "report 1 iterations 4 recovered 1: 4\nend\n => 4",
    "report 1 iterations 4 recovered 1: 2 3\nend\n => 4",
    "report 1 iterations 4 recovered 2: 2\nend\n => 4",
    "report 1 iterations 4 recovered 2: 2 1\nend\n => 4",
    "report 1 iterations 4 recovered 2: 1 1\nend\n => 4",
    "report 1 iterations 4 recovered 2: 1  2\nend\n => 4",
    "report 1 iterations 4 recovered 5: 0 1 2 3 4\nend\n => 4",
    "end\n => 4",
    "report 1 iterations 4 recovered 1: 2\nreport 1 iterations 4 recovered 1: 2\nend\n => 5",
    "report 1 iterations 4 recovered 1: 2\nEnd\n => 5",
    "report 1 iterations 4 recovered 1: 2\nend => 5",
    "report 1 iterations 4 recovered 1: 2\n => 5",
    "report 1 iterations 4 recovered 1: 2\nend\nend\n => 6",
    "report 1 iterations 4 recovered 1: 2\nend\n\n => 6",
];

/// A program without regions has no checkpoint, one without cells has a line `cells` alone.
const FEW: &[&str] = &[
    "resume p.c in.txt | int main() { $1} | $2 => $1\n",
    " | checkpoint 1\n => refused checkpoint line 1",
    " |  => refused checkpoint line 1",
    "#pragma dswp while (0) { }  | checkpoint 1\nregion 1 after 0 steps 0 fuel 1\ncells\nreport 1 iterations 0 recovered 0\nend\n => state\nregion 1 iterations 1 recovered 0\nend done",
    "#pragma dswp while (0) { }  | checkpoint 1\nregion 1 after 0 steps 0 fuel 1\ncells \nreport 1 iterations 0 recovered 0\nend\n => refused checkpoint line 3",
    "#pragma dswp while (0) { }  | checkpoint 1\nregion 1 after 0 steps 0 fuel 1\ncells 0\nreport 1 iterations 0 recovered 0\nend\n => refused checkpoint line 3",
];

#[test]
fn saved_runs_go_on(rt: HostRuntime) -> Result<(), Fail> {
    for table in [STALE, GONE_ON, TWO_REGIONS, FAULTS] {
        each_crew(&rt, rt.alloc(), table)?;
    }
    each(&rt, rt.alloc(), LISTED)?;
    Ok(())
}

#[test]
fn the_first_wrong_line_of_a_checkpoint(rt: HostRuntime) -> Result<(), Fail> {
    for table in [LINES, REPORTS, FEW] {
        each(&rt, rt.alloc(), table)?;
    }
    Ok(())
}
