//! Automatic plans: as the verb `plan` writes them, and runs under them.
use super::{each, each_crew};
use std::test::Fail;

const WRITTEN: &[&str] = &[
    "plan $1 $2 => plan 2\nregion 1 words 4096\n$1end\n",
    "sum_loop.c => seq 2 5\nseq 3 4\n",
    "sum_loop.c | --stages 1 => seq 2 3 4 5\n",
    "sum_loop.c | --stages 8 --workers 8 => seq 2 5\nseq 3 4\n",
    "zero_divisor.c => seq 2 4\nseq 3\n",
    "stale_read.c => seq 2 4\nseq 3 5\n",
    "skip_negative.c => seq 2 3 4 5 6\nseq 7\n",
    "histogram.c => seq 2 4\nseq 3\nseq 5 6\n",
    "histogram.c | --stages 3 --rate 0 => seq 2 4\nseq 3\nseq 5 6\n",
    "histogram.c | --stages 2 => seq 2 4\nseq 3 5 6\n",
    "early_exit.c => seq 2 6\nseq 3\nseq 4 5\n",
    "far_reads.c => seq 3 9\nseq 4 5 6 7\nseq 8\n",
    "stale_step.c => seq 2 8\nseq 3 7\nseq 4 5\nseq 6\n",
    "mixed_histogram.c => seq 2 4\nseq 3 5\npar 6 7 8 9\nseq 10 11\n",
    "mixed_histogram.c | --stages 8 --workers 8 => seq 2 4\nseq 3\nseq 5\nseq 6 8\nseq 7\nseq 9\nseq 10 11\n",
];

/// Two steps of stage 1, seven units of one site, of which the last two carry sums.
const MIXING: &[&str] = &[
    "plan p.c $1 | int hist[16]; int sum; int main() { int i = 0;\n#pragma dswp\nwhile (i < input_len) { int x = input[i]; i = i + 1; int a = x % 16; int b = (a * 5 + 3) % 16; int c = (b * 5 + 3) % 16; int d = (c * 5 + 3) % 16; int y = (d * 5 + 3) % 16; hist[y] = hist[y] + 1; sum = sum + y; } } => plan 2\nregion 1 words 4096\nseq 2 4\n$1end\n",
    " => seq 3 5\npar 6 7 8 9\nseq 10 11\n",
    "--workers 2 --stages 4 --rate 10 => seq 3 5\npar 6 7 8 9\nseq 10 11\n",
    "--workers 1 => seq 3 5\nseq 6 7 8\nseq 9 10 11\n",
    "--stages 8 --workers 8 => seq 3\nseq 5\nseq 6\nseq 7\nseq 8\nseq 9\nseq 10 11\n",
];

/// No region, several of them, inner loops in each other with both parts of an `if` behind them, and programs that are refused.
const PROGRAMS: &[&str] = &[
    "plan p.c | $1 => $1\n",
    "int main() { } => plan 2\nend",
    "int i; int main() { print(i); #pragma dswp while (i < 2) { i = i + 1; } #pragma dswp while (0) { print(7); } } => plan 2\nregion 1 words 4096\nseq 2 3\nregion 2 words 4096\nseq 4\nseq 5\nend",
    "int s; int t; int u; int main() { int i = 0; #pragma dswp while (i < 1) { i = i + 1; } #pragma dswp while (i < 3) { while (s < i) { while (t < s) { t = t + 1; } s = s + t; } if (t > 5) { u = s; } else { u = t; } print(u); i = i + 1; } } => plan 2\nregion 1 words 4096\nseq 2 3\nregion 2 words 4096\nseq 4 13\nseq 5 6 7 8\nseq 9 10 11 12\nend",
    "int main() { f(); } => refused program unknown line 1",
    "int main() { x = => refused program syntax token 7",
    "int a[65537]; int main() { } => limit cells 65537",
];

/// Under its least plan no load of a region is stale.
const RUN: &[&str] = &[
    "run $1 in.txt |  | $2 => $1\n",
    "stale_read.c => state\na 0 0 1 2 3 4 5 6\ns 10\nregion 1 iterations 7 recovered 0\nend done",
    "stale_step.c => state\nstep 2\nt 12\nregion 1 iterations 4 recovered 0\nend done",
    "skip_negative.c | 5 -1 7 8 => state\nn 12\nregion 1 iterations 4 recovered 0\nend done",
    "skip_negative.c | -9223372036854775808 => state\nn -9223372036854775808\nregion 1 iterations 2 recovered 0\nend done",
    "histogram.c | 0 1 2 3 4 5 6 => state\nh 2 2 1 2\nregion 1 iterations 8 recovered 0\nend done",
    "zero_divisor.c => state\nq 12\nregion 1 iterations 4 recovered 1: 3\nend fault divide line 6",
    "skip_negative.c | `65536*0 ` => state\nn 0\nregion 1 iterations 65537 recovered 0\nend done",
];

/// A plan that is named is the one that counts.
const NAMED: &[&str] = &[
    "run stale_read.c --plan stale.plan $1 => state\na 0 0 1 2 3 4 5 6\ns 10\nregion 1 iterations 7 recovered 2: 2 5\nend done\n",
    "--stages 1",
    "--stages 8 --rate 0",
    "--rate 1000 --workers 1",
];

/// The words of an iteration are counted for each stage: here the prints have one of their own.
const WORDS: &[&str] = &[
    "run p.c $1 | int j; int main() { #pragma dswp while (j < 1) { print(7); while (j < 2047) { j = j + 1; } } } => 7\nstate\nj 2047\nregion 1 iterations 2 recovered $1\nend done\n",
    " => 0",
    "--stages 2 => 0",
    "--stages 1 => 1: 0",
];

/// An exit behind the first stage is assumed not to be taken: the iteration that takes it is executed again.
const EXITS: &[&str] = &[
    "run p.c $2 | $1 => $1\n",
    "int n; int main() { #pragma dswp while (n < 5) { n = n + 1; if (n == 2) break; } } => state\nn 2\nregion 1 iterations 2 recovered 1: 1\nend done",
    "int n; int main() { #pragma dswp while (n < 5) { if (n == 9) break; n = n + 1; } } => state\nn 5\nregion 1 iterations 6 recovered 0\nend done",
    "int n; int main() { #pragma dswp while (n < 5) { if (1) break; n = n + 1; } #pragma dswp while (n < 2) { n = n + 1; } } => state\nn 2\nregion 1 iterations 1 recovered 1: 0\nregion 2 iterations 3 recovered 0\nend done",
    "int n; int main() { #pragma dswp while (1) { n = n + 1; if (n == 3) break; while (n == 2) { n = 2 - 1 + n; if (n > 2) { n = 2; } n = n + 0; if (n == 2) { n = 7; } } if (n == 7) { break; } } } => state\nn 7\nregion 1 iterations 2 recovered 1: 1\nend done",
    "int n; int main() {\n#pragma dswp\nwhile (1) {\nn = n + 1;\nif (1 / (3 - n)) break; } } => state\nn 2\nregion 1 iterations 2 recovered 1: 1\nend done",
    "int n; int m; int main() { #pragma dswp while (1) { n = n + 1; if (n > 2) break; m = m + n; } #pragma dswp while (m < 5) { m = m + 1; } print(m); } | --fuel 10 => state\nn 3\nm 3\nregion 1 iterations 3 recovered 1: 2\nend fuel",
    "int n; int m; int main() { #pragma dswp while (1) { n = n + 1; if (n > 2) break; m = m + n; } #pragma dswp while (m < 5) { m = m + 1; } print(m); } | --fuel 16 => state\nn 3\nm 5\nregion 1 iterations 3 recovered 1: 2\nregion 2 iterations 3 recovered 0\nend fuel",
];

#[test]
fn the_least_plans_are_written(rt: HostRuntime) -> Result<(), Fail> {
    for table in [WRITTEN, MIXING, PROGRAMS] {
        each(&rt, rt.alloc(), table)?;
    }
    Ok(())
}

#[test]
fn runs_without_a_named_plan(rt: HostRuntime) -> Result<(), Fail> {
    for table in [RUN, NAMED, WORDS] {
        each(&rt, rt.alloc(), table)?;
    }
    each_crew(&rt, rt.alloc(), EXITS)?;
    Ok(())
}
