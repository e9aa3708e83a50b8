//! Counts at and above their limits, and which cause comes first.
use super::each;
use std::test::Fail;

const DEPTHS: &[&str] = &[
    "run p.c | $1 => $1\n",
    "int main() {`63*if (1) {``64*}` => state\nend done",
    "int main() {`64*if (1) {``65*}` => limit nesting 65",
    "int main() {`1000*if (1) {``1001*}` => limit nesting 1001",
    "`65*{` => limit nesting 65",
    "int main() { print(`62*- `1); } => 1\nstate\nend done",
    "int main() { print(`63*- `1); } => -1\nstate\nend done",
    "int main() { print(`64*- `1); } => limit operators 65",
    "int main() { print(1`63*+1`); } => 64\nstate\nend done",
    "int main() { print(1`64*+1`); } => limit operators 65",
    "int main() { print(`63*(`1`63*)`); } => 1\nstate\nend done",
    "int a[2]; int main() { print(`63*a[`1`63*]`); } => 0\nstate\na 0 0\nend done",
    "int x; void f(int a, int b, int c) { x = c; } int main() { `100*x = 1; f(1, 2, 3); `} => state\nx 3\nend done",
    "int n; int main() { for (n = 0`32*+0`; n < 1`32*+1`; n = n + 1) { } } => state\nn 33\nend done",
    "int main() { if (0) { }`256* else if (0) { }` } => state\nend done",
    "int main() { if (0) { }`257* else if (0) { }` } => limit else-if 257",
    "`65*! ` => limit operators 65",
    "`257*else if ` => limit else-if 257",
];

const SIZES: &[&str] = &[
    "run p.c | $1 => $1\n",
    "int main() { }`65522* ` => state\nend done",
    "int main() { }`65523* ` => limit program-bytes 65537",
    "`64*void f@() { } `int main() { } => state\nend done",
    "`65*void f@() { } `int main() { } => limit functions 65",
    "int a[65535]; int x = 5; int main() { x = 6; } => state\na`65535* 0`\nx 6\nend done",
    "int a[65537]; int main() { } => limit cells 65537",
    "int a[65536]; int x = 5; int main() { } => limit cells 65537",
    "int a[999998]; int x = 5; int main() { } => limit cells 999999",
    "int a[999999]; int x = 5; int main() { } => limit cells 1000000",
    "int a[1000000]; int x = 5; int main() { } => limit cells 1000000",
    "int a[9223372036854775807]; int x = 5; int main() { } => limit cells 1000000",
    "int a[9223372036854775807]; int b[9223372036854775807]; int main() { } => limit cells 1000000",
    "int a[65536]; void f(int p) { } int main() { int x = 0; f(x); a[0] = 1 / x; } => state\na`65536* 0`\nend fault divide line 1",
    "int x; int main() {`8192*x=1;`} => state\nx 1\nend done",
    "int x; int main() {`8193*x=1;`} => limit inlined-size 8193",
    "int main() { #pragma dswp while (0) {`1023*print(1);`} } => state\nregion 1 iterations 1 recovered 0\nend done",
    "int main() { #pragma dswp while (0) {`1024*print(1);`} } => limit region-sites 1025",
    "void f() {`1023*print(1);`} int main() { #pragma dswp while (0) { f(); } #pragma dswp while (0) { f(); } } => state\nregion 1 iterations 1 recovered 0\nregion 2 iterations 1 recovered 0\nend done",
];

/// Expanding each function doubles the one before; then the first region that is too large.
const EXPANDED: &[&str] = &[
    "check p.c | $1 => $1\n",
    "void f0() { } `12*void f^() { f@(); f@(); } `int main() { f12(); } => ok",
    "void f0() { } `13*void f^() { f@(); f@(); } `int main() { f13(); } => limit inlined-size 16383",
    "void f0() { } `18*void f^() { f@(); f@(); } `int main() { f18(); } => limit inlined-size 524287",
    "void f0() { } `19*void f^() { f@(); f@(); } `int main() { f19(); } => limit inlined-size 1000000",
    "void f0() { } `60*void f^() { f@(); f@(); } `int main() { f60(); } => limit inlined-size 1000000",
    "int g; void f() {`512*g=1;`} int main() {\n#pragma dswp\nwhile (g < 0) { f(); f(); } } => limit region-sites 1025",
    "void f() {`1024*print(1);`} void g() {`5*print(1);`} int main() { #pragma dswp while (0) { f(); } #pragma dswp while (0) { g(); } } => limit region-sites 1025",
    "void f() {`1024*print(1);`} void g() {`5*print(1);`} int main() { #pragma dswp while (0) { g(); } #pragma dswp while (0) { f(); } } => limit region-sites 1025",
    "void f() {`1024*print(1);`} void g() {`1500*print(1);`} int main() { #pragma dswp while (0) { g(); } #pragma dswp while (0) { f(); } } => limit region-sites 1501",
    "void f() {`5000*print(1);`} int main() { #pragma dswp while (0) { f(); } #pragma dswp while (0) { f(); } } => limit inlined-size 10004",
];

/// The length comes before a byte that begins no token, that before a depth, that before the grammar, that before names, those
/// before counts; the program comes before its input, an input's count before its words, and all before the plan.
const FIRST_CAUSES: &[&str] = &[
    "run p.c in.txt --plan plan.txt | $1 | $2 | $3 => $1\n",
    "?`65536* ` => limit program-bytes 65537",
    "`65*{`? => refused program byte 65",
    "`65*! ``65*{` => limit nesting 65",
    "`65*}`{ => refused program syntax token 0",
    "int main() { print(0`64*+1`; } => limit operators 65",
    "int a[65537]; int main() { a[0] = 1 } => refused program syntax token 17",
    "int x; int main() { y=1;`8192*x=1;`} => refused program unknown line 1",
    "int a[65537]; int main() {\nf(); } => refused program unknown line 2",
    "`65*void f@() { } `int a[65537]; int main() { } => limit functions 65",
    "int a[65537]; int main() {`8193*a[0]=1;`} => limit cells 65537",
    "int x; int main() { #pragma dswp while (0) {`1024*x=1;`} `8000*x=1;`} => limit inlined-size 9025",
    "int | x => refused program syntax token 1",
    "int x; int main() { y = 1; } | x => refused program unknown line 1",
    "int a[65537]; int main() { } | x => limit cells 65537",
    "int main() { } | `1048577*x ` => limit input-bytes 2097153",
    "int main() { } | `65537*x ` => limit input-words 65537",
    "int main() { } | 1 x | plan 3 => refused input word 2",
    "int main() { } | 1 | `1048577* ` => limit plan-bytes 1048577",
    "int main() { } | 1 | `1048576* ` => refused plan line 1",
];

#[test]
fn counts_at_and_above_their_limits(rt: HostRuntime) -> Result<(), Fail> {
    for table in [DEPTHS, SIZES, EXPANDED] {
        each(&rt, rt.alloc(), table)?;
    }
    Ok(())
}

#[test]
fn the_first_cause_is_answered(rt: HostRuntime) -> Result<(), Fail> {
    each(&rt, rt.alloc(), FIRST_CAUSES)?;
    Ok(())
}

/// Texts as long as they may be, of many forms: what comes behind the grammar is answered.
const LARGEST: &[&str] = &[
    "check p.c | $1 => $1\n",
    "int main() {`16380*x=1;`} => refused program unknown line 1",
    "int main() {`9360*if(1){}`} => limit inlined-size 9360",
    "int main() {`4680*while(x){y=1;}`} => refused program unknown line 1",
    "`10920*int x;`int main(){} => refused program twice line 1",
    "`6550*void f(){}`int main(){} => refused program twice line 1",
    "void f(int a`10900*,int a`){} int main(){} => refused program twice line 1",
    "int main(){f(1`32750*,1`);} => refused program unknown line 1",
    "int main(){`62*while(1){`if(1){`256*}else if(2){`x=`64*!`y;`64*}` => refused program unknown line 1",
];

#[test]
fn the_largest_texts_are_read(rt: HostRuntime) -> Result<(), Fail> {
    each(&rt, rt.alloc(), LARGEST)?;
    Ok(())
}
