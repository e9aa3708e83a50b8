//! Calls of functions: each has parameters and locals of its own.
use super::each;
use std::test::Fail;

const CALLED: &[&str] = &[
    "run p.c | $1 => $1\n",
    "int g; void add(int a, int b) { g = g + a; g = g + b; } int main() { add(2, 3); add(g, 1); print(g); } => 11\nstate\ng 11\nend done",
    "int g; void add(int a, int b) { g = g + a; g = g + b; } int main() { int a = 7; add(2, 3); add(g, a); print(g); } => 17\nstate\ng 17\nend done",
    "void f() { } int main() { f(); } => state\nend done",
    "int g; void f() { int x = g + 1; g = x; } int main() { f(); f(); print(g); } => 2\nstate\ng 2\nend done",
    "int g; void f(int a) { g = g + a * 10; } int main() { int a = 3; f(a + 1); print(a); print(g); } => 3\n40\nstate\ng 40\nend done",
    "int g; void f(int a, int b, int c) { g = 1; } int main() { g = 7;\nf(1,\n1 / 0, 2); } => state\ng 7\nend fault divide line 2",
    "void f(int a) { }\nint main() {\nf(1 / 0); } => state\nend fault divide line 3",
    "void f(int a) {\nprint(1 / a); }\nint main() { f(0); } => state\nend fault divide line 2",
    "int g; void f(int a) { g = g * 10 + a; } int main() { if (g == 0) { f(1); } else { f(2); } if (g == 0) { f(3); } else { f(4); } } => state\ng 14\nend done",
    "int g; void f() { int n = 1; while (n < 3) { n = n + 1; g = g + n; } } int main() { f(); f(); print(g); } => 10\nstate\ng 10\nend done",
    "int g; void a(int x) { g = g + x; } void b(int x) { a(x); a(x + 1); } int main() { b(1); b(10); print(g); } => 24\nstate\ng 24\nend done",
    "int g; void f(int f) { g = f; } int main() { f(5); } => state\ng 5\nend done",
    "void e() { } void f(int p) { print(p); } int main() { int c = 1; if (c) { e(); f(20); } else { f(30); e(); } } => 20\nstate\nend done",
    "void e() { } void f(int p) { print(p); } int main() { int c = 0; if (c) { e(); f(20); } else { f(30); e(); } } => 30\nstate\nend done",
    "int a[2]; void f(int p, int q) { a[0] = p; a[1] = q; } int main() { f(4, 9); } => state\na 4 9\nend done",
    "int a[2]; void f(int p, int q) { a[0] = p; a[1] = q; } void g(int p, int q) { f(q, p); } int main() { g(4, 9); } => state\na 9 4\nend done",
    "int s; void f(int p) { int x = p; x = x + 1; s = s * 10 + x; } int main() { f(1); f(5); } => state\ns 26\nend done",
    "int s; int t = 1; int u = -1; int z[9]; void e() { } void f(void) { s = 1; } void g(int a) { t = a; } void h(int a, int b) { u = a - b; } int main(void) { int x = 1; x = 2; z[1] = 2; z[z[0]] = z[1]; e(); f(); g(1); h(z[1], -3); print(x); return 0; } => 2\nstate\ns 1\nt 1\nu 5\nz 2 2 0 0 0 0 0 0 0\nend done",
    "int g; void f(int a) { int b = a * 2; g = g + b; } int main() { int i = 0;\n#pragma dswp\nwhile (i < 3) { f(i); i = i + 1; } } => state\ng 6\nregion 1 iterations 4 recovered 0\nend done",
];

/// The fuel ends between two bindings; a call of an empty function takes no step.
const FUEL: &[&str] = &[
    "run p.c --fuel $1 | int g; void add(int a, int b) { g = g + a; g = g + b; } void e() { } int main() { e(); add(2, 3); e(); add(g, 1); print(g); e(); } => $1\n",
    "0 => state\ng 0\nend fuel",
    "1 => state\ng 0\nend fuel",
    "3 => state\ng 2\nend fuel",
    "5 => state\ng 5\nend fuel",
    "8 => state\ng 11\nend fuel",
    "9 => 11\nstate\ng 11\nend done",
];

/// 2,000 words, word k being the last digit of k, under the least plan and with the middle stage replicated.
const WORD_TABLE: &[&str] = &[
    "run word_table.c in.txt $1 |  | `200*0 1 2 3 4 5 6 7 8 9 ` | plan 1\nregion 1 words 4096\nseq 2 3 4\npar 5 6 7 8 9\nseq 10 11 12 13 14 15 16 17 18 19\nend\n => 10\n9000\nstate\nkeys 0 5 10 0 4 9 0 3 8 0 2 7 0 1 6 0\ncounts 0 200 200 0 200 200 0 200 200 0 200 200 0 200 200 0\ndistinct 10\ntotal 9000\nregion 1 iterations 2001 recovered 0\nend done\n",
    "--fuel 44024",
    "--plan plan.txt",
    "--plan plan.txt --workers 8 --lane 1",
];

#[test]
fn functions_are_called(rt: HostRuntime) -> Result<(), Fail> {
    for table in [CALLED, FUEL, WORD_TABLE] {
        each(&rt, rt.alloc(), table)?;
    }
    Ok(())
}
