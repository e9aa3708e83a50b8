//! The sites of the program with its calls expanded, and the lines of sites and regions.
use super::{answer_to, each, expect};
use std::test::Fail;

/// A binding has the line of the call's name, an `else if` that of its `if`, a marked loop that of its word; the step of a `for` is numbered behind its body.
const LISTED: &[&str] = &[
    "check p.c | $1 => ok$1\n",
    "int main() { } => ",
    "int g; void add(int a, int b) { g = g + a; g = g + b; } int main() { add(2, 3); add(g, 1); print(g); } => \nsite 1 line 1 assign\nsite 2 line 1 assign\nsite 3 line 1 assign\nsite 4 line 1 assign\nsite 5 line 1 assign\nsite 6 line 1 assign\nsite 7 line 1 assign\nsite 8 line 1 assign\nsite 9 line 1 print",
    "int n = -3;\nint a[7];\nvoid f(int p,\n  int q) {\n  a[p] = q;\n}\nint main() {\n  int\n    i = 0;\n  #pragma dswp\n\n  while (i) { }\n  if (i) { } else\n    if (n) { print\n      (i);\n    }\n  f(\n    1, i);\n}\n => \nregion 1 line 12 sites 2 to 2\nsite 1 line 8 assign\nsite 2 line 12 while\nsite 3 line 13 if\nsite 4 line 14 if\nsite 5 line 14 print\nsite 6 line 17 assign\nsite 7 line 17 assign\nsite 8 line 5 assign",
    "int n = -3;\nint a[4];\nvoid f(int p, int q) {\na[1] = p;\nint r = p + q;\n}\nvoid g(int s) {\nf(s, 1);\n}\nint main() {\nint i = 0;\n#pragma dswp\nwhile (n) {\nint t = a[0];\ng(t);\n}\nif (i) {\nn = input[2];\n} else {\nint u = input_len;\n}\n\n#pragma dswp\nwhile (i) {\nint t = n;\n}\nwhile (n) {\nint t = 1;\n}\nprint(i);\n} => \nregion 1 line 13 sites 2 to 8\nregion 2 line 24 sites 12 to 13\nsite 1 line 11 assign\nsite 2 line 13 while\nsite 3 line 14 assign\nsite 4 line 15 assign\nsite 5 line 8 assign\nsite 6 line 8 assign\nsite 7 line 4 assign\nsite 8 line 5 assign\nsite 9 line 17 if\nsite 10 line 18 assign\nsite 11 line 20 assign\nsite 12 line 24 while\nsite 13 line 25 assign\nsite 14 line 27 while\nsite 15 line 28 assign\nsite 16 line 30 print",
    "int g; void add(int a, int b) {\ng = g + a; g = g + b; } int main() {\nint a = 7; add(2, 3);\nadd(g, a);\nprint(g); } => \nsite 1 line 3 assign\nsite 2 line 3 assign\nsite 3 line 3 assign\nsite 4 line 2 assign\nsite 5 line 2 assign\nsite 6 line 4 assign\nsite 7 line 4 assign\nsite 8 line 2 assign\nsite 9 line 2 assign\nsite 10 line 5 print",
    "void e() { } void f(int p) {\nprint(p); } int main() {\nint c = 1;\n\nif (c) {\ne(); f(20); } else {\nf(30); e(); }\n#pragma dswp\nwhile (0) {\nf(40); } } => \nregion 1 line 9 sites 7 to 9\nsite 1 line 3 assign\nsite 2 line 5 if\nsite 3 line 6 assign\nsite 4 line 2 print\nsite 5 line 7 assign\nsite 6 line 2 print\nsite 7 line 9 while\nsite 8 line 10 assign\nsite 9 line 2 print",
    "int main() { for (int i = 0; i < 3; i = i + 1) { } int i = 5; print(i); } => \nsite 1 line 1 assign\nsite 2 line 1 while\nsite 3 line 1 assign\nsite 4 line 1 assign\nsite 5 line 1 print",
    "int i; int main() { for (i = 0; i < 3; i = i + 1) { } print(i); } => \nsite 1 line 1 assign\nsite 2 line 1 while\nsite 3 line 1 assign\nsite 4 line 1 print",
    "int a[2]; int main() { for (a[0] = 0; a[0] < 3; a[0] = a[0] + 1) { print(a[0]); } } => \nsite 1 line 1 assign\nsite 2 line 1 while\nsite 3 line 1 print\nsite 4 line 1 assign",
    "int main() {\nfor (\nint i = 0;\ni < 3;\ni = i + 1) {\nprint(i);\n}\n} => \nsite 1 line 3 assign\nsite 2 line 2 while\nsite 3 line 6 print\nsite 4 line 5 assign",
    "int main() {\n#pragma dswp\nfor (\nint i = 0;\ni < 3;\ni = i + 1) {\nprint(i);\n}\n} => \nregion 1 line 3 sites 2 to 4\nsite 1 line 4 assign\nsite 2 line 3 while\nsite 3 line 7 print\nsite 4 line 6 assign",
    "int main() {\nfor (int i = 0; i < 2;\ni = i + 1) {\nfor (int j = 0; j < 2;\nj = j + 1) {\nprint(i);\n} } } => \nsite 1 line 2 assign\nsite 2 line 2 while\nsite 3 line 4 assign\nsite 4 line 4 while\nsite 5 line 6 print\nsite 6 line 5 assign\nsite 7 line 3 assign",
    "void f(int n) {\nfor (int i = 0; i < n;\ni = i + 1) { print(i); } }\nint main() {\nf(2); } => \nsite 1 line 5 assign\nsite 2 line 2 assign\nsite 3 line 2 while\nsite 4 line 3 print\nsite 5 line 3 assign",
    "int main() {\n#pragma dswp\nwhile (1) { for (int i = 0; i < 3; i = i + 1) { } } } => \nregion 1 line 3 sites 1 to 4\nsite 1 line 3 while\nsite 2 line 3 assign\nsite 3 line 3 while\nsite 4 line 3 assign",
    "int main() {\n#pragma dswp\nfor (int i = 0; i < 3; i = i + 1) { int t = i; }\n#pragma dswp\nfor (int i = 0; i < 3; i = i + 1) { int t = i; } } => \nregion 1 line 3 sites 2 to 4\nregion 2 line 5 sites 6 to 8\nsite 1 line 3 assign\nsite 2 line 3 while\nsite 3 line 3 assign\nsite 4 line 3 assign\nsite 5 line 5 assign\nsite 6 line 5 while\nsite 7 line 5 assign\nsite 8 line 5 assign",
];

/// Held under its name.
const OF_THE_LIBRARY: &[&str] = &[
    "check $1 => ok$1\n",
    "sum_loop.c => \nregion 1 line 5 sites 2 to 5\nsite 1 line 3 assign\nsite 2 line 5 while\nsite 3 line 6 assign\nsite 4 line 7 print\nsite 5 line 8 assign",
    "early_exit.c => \nregion 1 line 4 sites 2 to 6\nsite 1 line 4 assign\nsite 2 line 4 while\nsite 3 line 5 assign\nsite 4 line 6 break\nsite 5 line 7 assign\nsite 6 line 4 assign",
];

#[test]
fn sites_are_listed(rt: HostRuntime) -> Result<(), Fail> {
    each(&rt, rt.alloc(), LISTED)?;
    each(&rt, rt.alloc(), OF_THE_LIBRARY)?;
    Ok(())
}

#[test]
fn a_list_of_sites_may_fail(rt: HostRuntime) -> Result<(), Fail> {
    let answered = answer_to(&rt, rt.alloc(), "check sum_loop.c", &[], &[], Some(10))?;
    expect(&rt, &answered, b"ok\nregion ", 6, "", "");
    Ok(())
}
