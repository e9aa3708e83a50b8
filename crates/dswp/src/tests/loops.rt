//! Loops and regions, some of them under one stage: their iterations, and the end of the fuel at each step.
use super::each;
use std::test::Fail;

const PLAIN: &[&str] = &[
    "run p.c | $1 => $1\n",
    "int s; int main() { for (int i = 0; i < 4; i = i + 1) { s = s + i; } } => state\ns 6\nend done",
    "int s; int main() { int k = 5; for (int i = k; i > 0; i = i - 2) { s = s * 10 + i; } } => state\ns 531\nend done",
    "int s; int main() { for (int i = 0; i < 2; i = i + 1) { for (int j = 0; j < 2; j = j + 1) { s = s * 10 + i + j; } } } => state\ns 112\nend done",
    "int i; int main() { for (i = 7; 0; i = 9) { i = 8; } } => state\ni 7\nend done",
    "int a[2]; int main() { for (a[1] = 0; a[1] < 3; a[1] = a[1] + 1) { a[0] = a[0] + a[1]; } } => state\na 3 3\nend done",
    "int n; int i; int a[2]; int main() { for (i = 1; i < 4; a[1] = a[1] + i) { i = i + 1; } n = i; } => state\nn 4\ni 4\na 0 9\nend done",
    "int n; int a[2]; int main() { for (a[0] = 2; n < 3; n = n + a[0]) { } } => state\nn 4\na 2 0\nend done",
    "int n; void f() { for (int i = 0; i < 2; i = i + 1) { n = n + 1; } } int main() { if (1) { f(); for (int i = 0; i < 2; i = i + 1) { while (n < 3) { n = n + 1; } } } } => state\nn 3\nend done",
    "int i; int main() { while (i < 30000) { print(7); i = i + 1; } } => `30000*7\n`state\ni 30000\nend done",
];

/// Regions of one stage each.
const REGIONS: &[&str] = &[
    "run p.c --stages 1 | $1 => $1\n",
    "int main() {\n#pragma dswp\nwhile (0) { }\n} => state\nregion 1 iterations 1 recovered 0\nend done",
    "int s; int main() {\n#pragma dswp\nwhile (1 / s) { } } => state\ns 0\nregion 1 iterations 1 recovered 1: 0\nend fault divide line 3",
    "int x; int y; int main() { while (x < 2) { x = x + 1; while (0) { } y = y + 2; } if (0) { } if (1) { } else { } if (0) { } else if (0) { } if (0) { } else if (0) { } else { x = x + 10; } if (1) { if (0) { } else { y = y + 100; } } #pragma dswp while (x < 13) { x = x + 1; } #pragma dswp while (0) { } print(y); } => 104\nstate\nx 13\ny 104\nregion 1 iterations 2 recovered 0\nregion 2 iterations 1 recovered 0\nend done",
    "int n = -3;\nint a[7];\nvoid f(int p,\n  int q) {\n  a[p] = q;\n}\nint main() {\n  int\n    i = 0;\n  #pragma dswp\n\n  while (i) { }\n  if (i) { } else\n    if (n) { print\n      (i);\n    }\n  f(\n    1, i);\n}\n => 0\nstate\nn -3\na 0 0 0 0 0 0 0\nregion 1 iterations 1 recovered 0\nend done",
    "int j; int main() { #pragma dswp while (j < 1) { while (j < 3000) { j = j + 1; } } } => state\nj 3000\nregion 1 iterations 2 recovered 1: 0\nend done",
    "int j; int main() { #pragma dswp while (j < 1) { while (j < 2047) { j = j + 1; } } } => state\nj 2047\nregion 1 iterations 2 recovered 0\nend done",
    "int j; int main() { #pragma dswp while (j < 1) { print(7); while (j < 2047) { j = j + 1; } } } => 7\nstate\nj 2047\nregion 1 iterations 2 recovered 1: 0\nend done",
    "int i; int main() { #pragma dswp while (i < 1) { while (i < 30000) { print(7); i = i + 1; } } } => `30000*7\n`state\ni 30000\nregion 1 iterations 2 recovered 1: 0\nend done",
    "int i; int main() { #pragma dswp while (i < 1002) { i = i + 1; int j = 0; while (j < 2048) { j = j + 1; } } } => state\ni 1002\nregion 1 iterations 1003 recovered 1002:`1000* @`\nend done",
    "int x; int main() { #pragma dswp while (1) {`99* x = 1;` } } => state\nx 1\nregion 1 iterations 100000 recovered 0\nend fuel",
    "int x; int main() { #pragma dswp while (1) {`98* x = 1;` } } => state\nx 1\nregion 1 iterations 101011 recovered 1: 101010\nend fuel",
    "int a = -7; int b = 2; int q; int r; int main() {\n#pragma dswp\nwhile (a < 3) { q = q - a / b; r = r * 3; r = r + a % b; b = b - 5; a = a + 2; } } => state\na 3\nb -23\nq 2\nr -164\nregion 1 iterations 6 recovered 0\nend done",
    "int s = 100; int d = 3;\nint main() {\n#pragma dswp\nwhile (s > 0) {\nd = d - 1;\ns = s / d;\ns = s + d; } } => state\ns 53\nd 0\nregion 1 iterations 3 recovered 1: 2\nend fault divide line 6",
    "int s = 1; int m = -10; int n;\nint main() {\n#pragma dswp\nwhile (n <= 99) {\nn = n + 1;\ns = s * m; } } => state\ns 1000000000000000000\nm -10\nn 19\nregion 1 iterations 19 recovered 1: 18\nend fault overflow line 6",
    "int s = 2; int k = 6; int i = 5;\nint main() {\n#pragma dswp\nwhile (s > k / i) { i = i - 5; } } => state\ns 2\nk 6\ni 0\nregion 1 iterations 2 recovered 1: 1\nend fault divide line 4",
    "int x; int a[2]; int i; int main() { #pragma dswp while (i < 4) { if (i == 2) { a[5] = 1; } x = x + i; a[i % 2] = x; i = i + 1; } } => state\nx 1\na 0 1\ni 2\nregion 1 iterations 3 recovered 1: 2\nend fault index line 1",
];

/// Six relations of 0 to 3 to 1, as the digits of one number to the base 2.
const RELATIONS: &[&str] = &[
    "run p.c | int a; int b = 1; int x; int s; int main() {\n#pragma dswp\nwhile (a != 4) { $1a = a + 1; } } => $1\n",
    "x = a < b; s = s * 2; s = s + x; x = a <= b; s = s * 2; s = s + x; x = a > b; s = s * 2; s = s + x; x = a >= b; s = s * 2; s = s + x; x = a == b; s = s * 2; s = s + x; x = a != b; s = s * 2; s = s + x; => state\na 4\nb 1\nx 1\ns 12936013\nregion 1 iterations 5 recovered 0\nend done",
];

/// Three regions, the last of which is reached only where the second has no fault.
const SEVERAL: &[&str] = &[
    "run p.c | int s; int main() { int i = 0;\n#pragma dswp\nwhile (i < 2) { i = i + 1; }\n#pragma dswp\nwhile (i < $1) {\ns = s + 12 / (4 - i); i = i + 1; }\nprint(s);\n#pragma dswp\nwhile (i < 9) { i = i + 1; } } => $1\n",
    "4 => 18\nstate\ns 18\nregion 1 iterations 3 recovered 0\nregion 2 iterations 3 recovered 0\nregion 3 iterations 6 recovered 0\nend done",
    "5 => state\ns 18\nregion 1 iterations 3 recovered 0\nregion 2 iterations 3 recovered 1: 2\nend fault divide line 6",
];

const SUM_LOOP: &[&str] = &[
    "run sum_loop.c --fuel $1 => $1\n",
    "0 => state\ns 0\nend fuel",
    "1 => state\ns 0\nend fuel",
    "2 => state\ns 0\nregion 1 iterations 1 recovered 1: 0\nend fuel",
    "5 => 0\nstate\ns 0\nregion 1 iterations 1 recovered 0\nend fuel",
    "9 => 0\n1\nstate\ns 1\nregion 1 iterations 2 recovered 0\nend fuel",
    "10 => 0\n1\nstate\ns 1\nregion 1 iterations 3 recovered 1: 2\nend fuel",
    "13 => 0\n1\n3\nstate\ns 3\nregion 1 iterations 3 recovered 0\nend fuel",
    "14 => 0\n1\n3\nstate\ns 3\nregion 1 iterations 4 recovered 0\nend done",
    "1000000000 => 0\n1\n3\nstate\ns 3\nregion 1 iterations 4 recovered 0\nend done",
];

/// Iterations of eight steps with each form of a straight assignment.
const STRAIGHT: &[&str] = &[
    "run p.c --fuel $1 | int s; int t; int c; int i; int main() {\n#pragma dswp\nwhile (i < 7) { s = s + i * 3; t = t - i * i; c = c + 1; s = s + c; int u = s - c; t = t + u; i = i + 1; } } => $1\n",
    "57 => state\ns 91\nt 133\nc 7\ni 7\nregion 1 iterations 8 recovered 0\nend done",
    "56 => state\ns 91\nt 133\nc 7\ni 7\nregion 1 iterations 7 recovered 0\nend fuel",
    "25 => state\ns 15\nt 11\nc 3\ni 3\nregion 1 iterations 4 recovered 1: 3\nend fuel",
    "20 => state\ns 12\nt -1\nc 3\ni 2\nregion 1 iterations 3 recovered 1: 2\nend fuel",
    "9 => state\ns 1\nt 0\nc 1\ni 1\nregion 1 iterations 2 recovered 1: 1\nend fuel",
    "8 => state\ns 1\nt 0\nc 1\ni 1\nregion 1 iterations 1 recovered 0\nend fuel",
];

/// A condition that faults begins its iteration; with no step left it doesn't.
const FAULTY_CONDITION: &[&str] = &[
    "run p.c --fuel $1 | int i; int main() {\n#pragma dswp\nwhile (4 / (2 - i)) { i = i + 1; } } => $1\n",
    "0 => state\ni 0\nend fuel",
    "1 => state\ni 0\nregion 1 iterations 1 recovered 1: 0\nend fuel",
    "3 => state\ni 1\nregion 1 iterations 2 recovered 1: 1\nend fuel",
    "4 => state\ni 2\nregion 1 iterations 2 recovered 0\nend fuel",
    "5 => state\ni 2\nregion 1 iterations 3 recovered 1: 2\nend fault divide line 3",
];

/// Seven steps of a plain loop, and then 13 of a region.
const BEHIND_A_LOOP: &[&str] = &[
    "run p.c --fuel $1 | int x; int main() {\nwhile (x < 3) { x = x + 1; }\n#pragma dswp\nwhile (x < 6) { int t = x; print(t); x = x + 1; } } => $1\n",
    "4 => state\nx 2\nend fuel",
    "7 => state\nx 3\nend fuel",
    "19 => 3\n4\n5\nstate\nx 6\nregion 1 iterations 3 recovered 0\nend fuel",
    "20 => 3\n4\n5\nstate\nx 6\nregion 1 iterations 4 recovered 0\nend done",
];

#[test]
fn plain_loops_and_regions(rt: HostRuntime) -> Result<(), Fail> {
    for table in [PLAIN, REGIONS, RELATIONS, SEVERAL] {
        each(&rt, rt.alloc(), table)?;
    }
    Ok(())
}

#[test]
fn the_fuel_ends_a_run_at_each_step(rt: HostRuntime) -> Result<(), Fail> {
    for table in [SUM_LOOP, STRAIGHT, FAULTY_CONDITION, BEHIND_A_LOOP] {
        each(&rt, rt.alloc(), table)?;
    }
    Ok(())
}
