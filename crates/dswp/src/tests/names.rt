//! Names: where each is visible, and the first one that offends.
use super::each;
use std::test::Fail;

const HIDDEN: &[&str] = &[
    "check p.c | $1 => refused program $1\n",
    "int main() {\nprint(x);\nint x = 1; } => unknown line 2",
    "int main() { int x =\nx; } => unknown line 2",
    "int main() { while (1) { int x = 1; }\nprint(x); } => unknown line 2",
    "int main() {\n#pragma dswp\nwhile (1) { int x = 1; }\nprint(x); } => unknown line 4",
    "int main() { if (1) { int x = 1; } else {\nprint(x); } } => unknown line 2",
    "int main() { if (1) { } else { int x = 1; }\nprint(x); } => unknown line 2",
    "int main() { while (\nx) { int x = 1; } } => unknown line 2",
    "int main() { while (1) { int x = 1;\nint x = 1; } } => twice line 2",
    "int main() { int x = 1; while (1) {\nint x = 1; } } => twice line 2",
    "void f() {\nf(); } int main() { } => unknown line 2",
    "void g() {\nf(); } void f() { } int main() { } => unknown line 2",
    "void f(int p,\nint p) { } int main() { } => twice line 2",
    "void f(int x) {\nint x = 1; } int main() { } => twice line 2",
    "void f(int x) { } void g() {\nprint(x); } int main() { } => unknown line 2",
    "int f;\nvoid f() { } int main() { } => twice line 2",
    "void f() { }\nint f[1]; int main() { } => twice line 2",
    "int x; void f(\nint x) { } int main() { } => twice line 2",
    "void f() {\nprint(x); } int x; int main() { } => unknown line 2",
    "void f() {\nprint(x); }\nint main() { f(1); } => unknown line 2",
    "void f() { }\nint main() {\nf(1); } => arguments line 3",
    "int main() { int x = 1; int x = 2; } => twice line 1",
    "int x; int main() { x[0] = 1; } => not-array line 1",
    "int a[2]; int main() { a = 1; } => not-scalar line 1",
    "void f(int a) { } int main() { f(); } => arguments line 1",
    "int main() { input[0] = 1; } => read-only line 1",
    "int main() { f(); } => unknown line 1",
    "void f() { f(); } int main() { } => unknown line 1",
    "int main() {\n\n  y = 1; } => unknown line 3",
    "int main() { if (1) { int x = 1; } x = 2; } => unknown line 1",
    "int input; int main() { } => twice line 1",
    "void f() { } void g() {\nf(); } int main() { y = 1; } => unknown line 2",
    "int main() {\nz\n= y; } => unknown line 2",
    "int a[1]; int main() { a[q]\n= z; } => unknown line 1",
    "void f(int a) { } int main() {\ng(\nh); } => unknown line 2",
    "void f(int f) { int g = f; } int main() {\nint g = 1;\nint g = 2; } => twice line 3",
    "void f() {\ny = 1; } int main() {\nz = 1; } => unknown line 2",
    "int x; void x() { } int main() { } => twice line 1",
];

/// A name that a `for` declares is visible to the end of that `for`; its step does not see the names of its body.
const IN_LOOPS: &[&str] = &[
    "check p.c | $1 => refused program $1\n",
    "int main() { for (int i = 0; i < 3; i = j) { int j = 1; } } => unknown line 1",
    "int main() { for (int i = 0; i < 3; i =\nj) { int j = 1; } } => unknown line 2",
    "int main() { for (int i = 0; i < 3; i = i + 1) { }\nprint(i); } => unknown line 2",
    "int main() { int i = 0; for (\nint i = 0; i < 3; i = i + 1) { } } => twice line 2",
    "int main() { for (int i = 0; i < 3; i = i + 1) {\nint i = 1; } } => twice line 2",
    "int main() { for (int i =\ni; 1; i = 1) { } } => unknown line 2",
    "int main() { for (u = 0;\nv;\nw = 0) {\nprint(x); } } => unknown line 1",
    "int u; int main() { for (u = 0;\nv;\nw = 0) {\nprint(x); } } => unknown line 2",
    "int u; int main() { for (u = 0;\nu;\nw = 0) {\nprint(x); } } => unknown line 3",
    "int u; int main() { for (u = 0;\nu;\nu = 0) {\nprint(x); } } => unknown line 4",
];

/// Behind two variables and two functions, in line 2; the first of two names decides.
const OFFENCES: &[&str] = &[
    "check p.c | int x; int a[4]; void f() { } void g(int p) { } int main() {\n$1 } => refused program $1\n",
    "y = 1; => unknown line 2",
    "f = 1; => unknown line 2",
    "a = 1; => not-scalar line 2",
    "input = 1; => not-scalar line 2",
    "input_len = 1; => read-only line 2",
    "y[1] = 1; => unknown line 2",
    "f[1] = 1; => unknown line 2",
    "x[1] = 1; => not-array line 2",
    "input_len[1] = 1; => not-array line 2",
    "input[1] = 1; => read-only line 2",
    "print(y); => unknown line 2",
    "print(g); => unknown line 2",
    "print(a); => not-scalar line 2",
    "print(input); => not-scalar line 2",
    "print(y[9]); => unknown line 2",
    "print(f[9]); => unknown line 2",
    "print(x[9]); => not-array line 2",
    "print(input_len[9]); => not-array line 2",
    "int x = 1; => twice line 2",
    "int a = 1; => twice line 2",
    "int g = 1; => twice line 2",
    "int input = 1; => twice line 2",
    "int input_len = 1; => twice line 2",
    "y(); => unknown line 2",
    "x(); => unknown line 2",
    "input(); => unknown line 2",
    "g(); => arguments line 2",
    "x(1); => unknown line 2",
    "f(1); => arguments line 2",
    "g(1, 1); => arguments line 2",
    "y =\na; => unknown line 2",
    "a =\ny; => not-scalar line 2",
    "x[\ny] = 1; => not-array line 2",
    "a[y] =\na; => unknown line 2",
    "int x =\ny; => twice line 2",
    "f(\ny); => arguments line 2",
    "g(y +\na); => unknown line 2",
    "print(a +\ny); => not-scalar line 2",
];

const LAWFUL: &[&str] = &[
    "check p.c | $1 => ok$1\n",
    "int main() {\nint x = 1;\nprint(x); } => \nsite 1 line 2 assign\nsite 2 line 3 print",
    "int main() { while (1) { int x = 1; print(x); } } => \nsite 1 line 1 while\nsite 2 line 1 assign\nsite 3 line 1 print",
    "int main() { while (1) { int x = 1; }\n#pragma dswp\nwhile (1) { int x = 1; }\nint x = 1; print(x); } => \nregion 1 line 3 sites 3 to 4\nsite 1 line 1 while\nsite 2 line 1 assign\nsite 3 line 3 while\nsite 4 line 3 assign\nsite 5 line 4 assign\nsite 6 line 4 print",
    "int main() { if (1) { int x = 1; print(x); } else { int x = 1; print(x); } } => \nsite 1 line 1 if\nsite 2 line 1 assign\nsite 3 line 1 print\nsite 4 line 1 assign\nsite 5 line 1 print",
    "void f() { } void g() { f(); } int main() { } => ",
    "void f(int f) { int g = f; } int main() { } => ",
    "void f() { int f = 1; } void g() { } int main() { } => ",
    "void f(int p) { } void g(int p) { } int main() { } => ",
    "void f(int p) { } int p; int main() { } => ",
    "int x; void f() { print(x); } int main() { } => ",
];

const LAWFUL_USES: &[&str] = &[
    "check p.c | int x; int a[4]; void f() { } void g(int p) { } int main() {\n$1 } => ok$1\n",
    "x = 1; => \nsite 1 line 2 assign",
    "a[1] = 1; => \nsite 1 line 2 assign",
    "print(x); => \nsite 1 line 2 print",
    "print(input_len); => \nsite 1 line 2 print",
    "print(a[9]); => \nsite 1 line 2 print",
    "print(input[9]); => \nsite 1 line 2 print",
    "int y = 1; => \nsite 1 line 2 assign",
    "f(); => ",
    "g(1); => \nsite 1 line 2 assign",
];

#[test]
fn the_first_name_that_offends(rt: HostRuntime) -> Result<(), Fail> {
    for table in [HIDDEN, IN_LOOPS, OFFENCES] {
        each(&rt, rt.alloc(), table)?;
    }
    Ok(())
}

#[test]
fn lawful_names(rt: HostRuntime) -> Result<(), Fail> {
    each(&rt, rt.alloc(), LAWFUL)?;
    each(&rt, rt.alloc(), LAWFUL_USES)?;
    Ok(())
}
