//! `for` as a region, and the early exit of a region.
use super::{each, each_crew};
use std::test::Fail;

/// Under one stage; what stands behind the region is gone on with.
const ONE_STAGE: &[&str] = &[
    "run p.c --stages 1 | $1 => $1\n",
    "int n; int main() { #pragma dswp for (int i = 0; i < 3; i = i + 1) { n = n + i; } } => state\nn 3\nregion 1 iterations 4 recovered 0\nend done",
    "int n; int i; int main() { #pragma dswp for (i = 5; i > 2; i = i - 2) { int t = n; n = t + i; } print(i); } => 1\nstate\nn 8\ni 1\nregion 1 iterations 3 recovered 0\nend done",
    "int n; int main() { #pragma dswp while (n < 5) { n = n + 1; if (n == 2) break; } } => state\nn 2\nregion 1 iterations 2 recovered 0\nend done",
    "int n; int main() { #pragma dswp while (n < 5) { n = n + 1; if (n == 2) { break; } } print(n); } => 2\nstate\nn 2\nregion 1 iterations 2 recovered 0\nend done",
    "int n; int main() { #pragma dswp while (n < 5) { if (n == 9) break; n = n + 1; } } => state\nn 5\nregion 1 iterations 6 recovered 0\nend done",
    "int n; int main() { #pragma dswp while (n < 5) { if (1) break; n = n + 1; } #pragma dswp while (n < 2) { n = n + 1; } } => state\nn 2\nregion 1 iterations 1 recovered 0\nregion 2 iterations 3 recovered 0\nend done",
    "int n; int m; int main() { #pragma dswp while (1) { n = n + 1; if (n == 2) break; } #pragma dswp while (1) { m = m + 1; if (m == 3) break; n = n + 5; } } => state\nn 12\nm 3\nregion 1 iterations 2 recovered 0\nregion 2 iterations 3 recovered 0\nend done",
    "int n; int main() { #pragma dswp while (1) { n = n + 1; if (n == 3) break; while (n == 2) { n = 2 - 1 + n; if (n > 2) { n = 2; } n = n + 0; if (n == 2) { n = 7; } } if (n == 7) { break; } } } => state\nn 7\nregion 1 iterations 2 recovered 0\nend done",
    "int n; int main() {\n#pragma dswp\nwhile (1) {\nn = n + 1;\nif (1 / (3 - n)) break; } } => state\nn 2\nregion 1 iterations 2 recovered 0\nend done",
    "int n = 3; int main() {\n#pragma dswp\nwhile (1) {\nif (1 / (3 - n)) break; } } => state\nn 3\nregion 1 iterations 1 recovered 1: 0\nend fault divide line 4",
];

/// Under one stage: three iterations of 4, 4 and 3 steps, a region behind them, and a print.
const FUEL: &[&str] = &[
    "run p.c --stages 1 --fuel $1 | int n; int m; int main() {\n#pragma dswp\nwhile (1) { n = n + 1; if (n > 2) break; m = m + n; }\n#pragma dswp\nwhile (m < 5) { m = m + 1; }\nprint(m); } => $1\n",
    "10 => state\nn 3\nm 3\nregion 1 iterations 3 recovered 1: 2\nend fuel",
    "11 => state\nn 3\nm 3\nregion 1 iterations 3 recovered 0\nend fuel",
    "16 => state\nn 3\nm 5\nregion 1 iterations 3 recovered 0\nregion 2 iterations 3 recovered 0\nend fuel",
    "17 => 5\nstate\nn 3\nm 5\nregion 1 iterations 3 recovered 0\nregion 2 iterations 3 recovered 0\nend done",
];

/// Sites 1 to 6 with the exit 4: in stage 1 it closes the region, in a later one it is assumed not taken.
const STAGES: &[&str] = &[
    "run early_exit.c in.txt --plan plan.txt $2 |  | $3 | plan 1\nregion 1 words 4096\nseq $1\nend\n => state\nn $1\n",
    "2 6\nseq 3 4 5 |  | 5 -1 7 => 5\nregion 1 iterations 2 recovered 1: 1\nend done",
    "2 3 4 6\nseq 5 |  | 5 -1 7 => 5\nregion 1 iterations 2 recovered 0\nend done",
    "2 6\nseq 3 4 5 |  | 5 6 => 11\nregion 1 iterations 3 recovered 0\nend done",
    "2 3 4 6\nseq 5 |  | 5 6 => 11\nregion 1 iterations 3 recovered 0\nend done",
    "2 3 4 6\nseq 5 | --fuel 8 | 5 -1 7 => 5\nregion 1 iterations 2 recovered 1: 1\nend fuel",
    "2 3 4 6\nseq 5 | --fuel 9 | 5 -1 7 => 5\nregion 1 iterations 2 recovered 0\nend done",
    "2 6\npar 3 4\nseq 5 |  | 5 6 -1 7 => 11\nregion 1 iterations 3 recovered 1: 2\nend done",
    "2 6\nseq 3\npar 4\nseq 5 |  | -1 => 0\nregion 1 iterations 1 recovered 1: 0\nend done",
];

/// An exit in stage 1, in front of a body that is split.
const IN_FRONT: &[&str] = &[
    "run p.c in.txt --plan plan.txt | int n; int m; int main() {\n#pragma dswp\nfor (int i = 0; i < input_len; i = i + 1) { if (input[i] < 0) break; int x = input[i]; m = m + x * x; n = n + x; } } | $2 | plan 2\nregion 1 words 16\n$1end\n => state\n$1\nend done\n",
    "seq 2 3 7\npar 4\nseq 5 6\n | 1 2 3 => n 6\nm 14\nregion 1 iterations 4 recovered 0",
    "seq 2 3 7\npar 4\nseq 5\nseq 6\n | 1 2 -3 4 => n 3\nm 5\nregion 1 iterations 3 recovered 0",
    "seq 2 3 4 7\nseq 5\nseq 6\n | -3 4 => n 0\nm 0\nregion 1 iterations 1 recovered 0",
];

#[test]
fn regions_are_left_early(rt: HostRuntime) -> Result<(), Fail> {
    each(&rt, rt.alloc(), ONE_STAGE)?;
    each(&rt, rt.alloc(), FUEL)?;
    each_crew(&rt, rt.alloc(), STAGES)?;
    each_crew(&rt, rt.alloc(), IN_FRONT)?;
    Ok(())
}
