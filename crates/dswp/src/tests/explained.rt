//! Programs as trees, and what least plans rest on.
use super::{answer_to, each, expect};
use std::test::Fail;

/// Each form of statement and of expression stands once at least; a function is expanded twice, in a region and outside.
const TREES: &[&str] = &[
    "tree p.c | $1 => ok\n$1end\n",
    "int main() { } => main\n",
    "int n = -3; int a[7]; void f(int p) { a[p] = p - -n; }\nint main() { f(2); int i = 0;\n#pragma dswp\nwhile (i < input_len) {\nint x = input[i]; if (!x || x >= 7) break;\nif (x % 2 != 1 && n <= x) { f(x); } else { while (x > 4) { x = x / 2; } }\ni = i + 1; }\nprint(a[2] == i * 3); } => region 1 line 4 sites 4 to 12\nsite 1 line 2 assign\nsite 2 line 1 assign\nsite 3 line 2 assign\nsite 4 line 4 while\nsite 5 line 5 assign\nsite 6 line 5 break\nsite 7 line 6 if\nsite 8 line 6 assign\nsite 9 line 1 assign\nsite 10 line 6 while\nsite 11 line 6 assign\nsite 12 line 7 assign\nsite 13 line 8 print\nvar 0 n scalar first 0 length 1 start -3 global\nvar 1 a array first 1 length 7 start 0 global\nvar 2 p scalar first 8 length 1 start 0 outer\nvar 3 i scalar first 9 length 1 start 0 outer\nvar 4 x scalar first 10 length 1 start 0 body 1\nvar 5 p scalar first 11 length 1 start 0 body 1\nmain\nassign 1 2 number 2\nstore 2 1 scalar 2 - scalar 2 negate scalar 0\nassign 3 3 number 0\nregion 1 4 < scalar 3 input_len\nassign 5 4 input scalar 3\nbreak 6 || ! scalar 4 >= scalar 4 number 7\nif 7 && != % scalar 4 number 2 number 1 <= scalar 0 scalar 4\nassign 8 5 scalar 4\nstore 9 1 scalar 5 - scalar 5 negate scalar 0\nelse\nwhile 10 > scalar 4 number 4\nassign 11 4 / scalar 4 number 2\nend\nend\nassign 12 3 + scalar 3 number 1\nend\nprint 13 == element 1 number 2 * scalar 3 number 3\n",
    "int i; int main() {\n#pragma dswp\nfor (i = 0; i < 3; i = i + 1) { if (i) { print(9223372036854775807); } }\n#pragma dswp\nwhile (0) { } } => region 1 line 3 sites 2 to 5\nregion 2 line 5 sites 6 to 6\nsite 1 line 3 assign\nsite 2 line 3 while\nsite 3 line 3 if\nsite 4 line 3 print\nsite 5 line 3 assign\nsite 6 line 5 while\nvar 0 i scalar first 0 length 1 start 0 global\nmain\nassign 1 0 number 0\nregion 1 2 < scalar 0 number 3\nif 3 scalar 0\nprint 4 number 9223372036854775807\nelse\nend\nassign 5 0 + scalar 0 number 1\nend\nregion 2 6 number 0\nend\n",
];

/// The dependences of the text don't hang on a profile; the plan, which of them it minds and all that follows do.
const EXPLAINED: &[&str] = &[
    "explain $1 => plan 2\nregion 1 words 4096\n$1end\n",
    "sum_loop.c => seq 2 5\nseq 3 4\nend\nregion 1\nedge 2 3 control\nedge 2 4 control\nedge 2 5 control\nedge 3 3 carried 0 s\nedge 3 4 intra 0 s\nedge 3 4 carried 0 s\nedge 5 2 carried 1 i\nedge 5 3 carried 1 i\nedge 5 5 carried 1 i\nminded 2 3 control\nminded 2 4 control\nminded 2 5 control\nminded 3 3 carried 0 s\nminded 3 4 intra 0 s\nminded 3 4 carried 0 s\nminded 5 2 carried 1 i\nminded 5 3 carried 1 i\nminded 5 5 carried 1 i\nunit 2 2 5\nunit 1 3\nunit 1 4\nforward 1 2 3 control\nforward 1 2 4 control\nforward 1 5 3 carried 1 i\n",
    "sum_loop.c --profile sum_loop.prof --rate 1000 => seq 2\nseq 3\npar 4 5\nend\nregion 1\nedge 2 3 control\nedge 2 4 control\nedge 2 5 control\nedge 3 3 carried 0 s\nedge 3 4 intra 0 s\nedge 3 4 carried 0 s\nedge 5 2 carried 1 i\nedge 5 3 carried 1 i\nedge 5 5 carried 1 i\nchecked 2\nchecked 3\nchecked 5\nminded 2 3 control\nminded 2 4 control\nminded 2 5 control\nunit 4 2\nunit 3 3\nunit 3 4\nunit 3 5\ncompared 2 5 1 i\ncompared 3 5 1 i\ncompared 5 5 1 i\nforward 1 2 3 control\nforward 1 2 4 control\nforward 1 2 5 control\nforward 2 2 4 control\nforward 2 2 5 control\nruns 2 4 3\nruns 3 3 0\nruns 4 3 0\nruns 5 3 0\nflow 3 3 carried 2\nflow 3 4 intra 3\nflow 5 2 carried 3\nflow 5 3 carried 2\nflow 5 5 carried 2\n",
    "skip_negative.c --profile skip_negative.prof => seq 2 6\nseq 3\nseq 4 5 7\nend\nregion 1\nedge 2 3 control\nedge 2 4 control\nedge 2 5 control\nedge 2 6 control\nedge 2 7 control\nedge 3 4 intra 2 x\nedge 3 7 intra 2 x\nedge 4 5 control\nedge 5 2 carried 1 i\nedge 5 3 carried 1 i\nedge 5 5 carried 1 i\nedge 5 6 intra 1 i\nedge 5 6 carried 1 i\nedge 6 2 carried 1 i\nedge 6 3 carried 1 i\nedge 6 5 carried 1 i\nedge 6 6 carried 1 i\nedge 7 7 carried 0 n\nchecked 2\nchecked 3\nchecked 6\nminded 2 3 control\nminded 2 4 control\nminded 2 5 control\nminded 2 6 control\nminded 2 7 control\nminded 3 4 intra 2 x\nminded 3 7 intra 2 x\nminded 5 5 carried 1 i\nminded 6 2 carried 1 i\nminded 6 3 carried 1 i\nminded 6 5 carried 1 i\nminded 6 6 carried 1 i\nminded 7 7 carried 0 n\nunit 7 2 6\nunit 3 3\nunit 3 4\nunit 0 5\nunit 3 7\ncompared 2 5 1 i\ncompared 3 5 1 i\ncompared 6 5 1 i\nforward 1 2 3 control\nforward 1 2 4 control\nforward 1 2 5 control\nforward 1 2 7 control\nforward 1 6 3 carried 1 i\nforward 1 6 5 carried 1 i\nforward 2 2 4 control\nforward 2 2 5 control\nforward 2 2 7 control\nforward 2 3 4 intra 2 x\nforward 2 3 7 intra 2 x\nforward 2 6 5 carried 1 i\nruns 2 4 3\nruns 3 3 0\nruns 4 3 0\nruns 5 0 0\nruns 6 3 0\nruns 7 3 0\nflow 3 4 intra 3\nflow 3 7 intra 3\nflow 6 2 carried 3\nflow 6 3 carried 2\nflow 6 6 carried 2\nflow 7 7 carried 2\n",
];

/// No region, two of them, and accesses that lie apart, which no edge joins.
const PROGRAMS: &[&str] = &[
    "explain p.c $2 | $1 => plan 2\n$1end\n",
    "int main() { } => end\n",
    "int i; int main() { #pragma dswp while (i < 2) { i = i + 1; } #pragma dswp while (0) { print(7); } } | --stages 1 => region 1 words 4096\nseq 1 2\nregion 2 words 4096\nseq 3 4\nend\nregion 1\nedge 1 2 control\nedge 2 1 carried 0 i\nedge 2 2 carried 0 i\nminded 1 2 control\nminded 2 1 carried 0 i\nminded 2 2 carried 0 i\nunit 2 1 2\nregion 2\nedge 3 4 control\nminded 3 4 control\nunit 1 3\nunit 1 4\n",
    "int a[9]; int main() { int i = 1; #pragma dswp while (i < 8) { a[i] = i; print(a[i] + a[i + 1]); i = i + 1; } } => region 1 words 4096\nseq 2 5\nseq 3 4\nend\nregion 1\nedge 2 3 control\nedge 2 4 control\nedge 2 5 control\nedge 3 4 intra 0 a\nedge 5 2 carried 1 i\nedge 5 3 carried 1 i\nedge 5 4 carried 1 i\nedge 5 5 carried 1 i\nminded 2 3 control\nminded 2 4 control\nminded 2 5 control\nminded 3 4 intra 0 a\nminded 5 2 carried 1 i\nminded 5 3 carried 1 i\nminded 5 4 carried 1 i\nminded 5 5 carried 1 i\nunit 2 2 5\nunit 1 3\nunit 1 4\nforward 1 2 3 control\nforward 1 2 4 control\nforward 1 5 3 carried 1 i\nforward 1 5 4 carried 1 i\n",
];

const REFUSED: &[&str] = &[
    "$1 p.c $2 | $3 |  | profile => $1\n",
    "tree |  | int main() { f(); } => refused program unknown line 1",
    "tree |  | int a[65537]; int main() { } => limit cells 65537",
    "explain |  | int main() { x = => refused program syntax token 7",
    "explain | --profile plan.txt | int main() { } => refused profile line 1",
];

#[test]
fn trees_and_reasons_are_written(rt: HostRuntime) -> Result<(), Fail> {
    for table in [TREES, EXPLAINED, PROGRAMS, REFUSED] {
        each(&rt, rt.alloc(), table)?;
    }
    Ok(())
}

#[test]
fn their_texts_may_fail(rt: HostRuntime) -> Result<(), Fail> {
    let answered = answer_to(&rt, rt.alloc(), "tree sum_loop.c", &[], &[], Some(10))?;
    expect(&rt, &answered, b"ok\nregion ", 6, "", "");
    let answered = answer_to(&rt, rt.alloc(), "explain sum_loop.c", &[], &[], Some(7))?;
    expect(&rt, &answered, b"plan 2\n", 6, "", "");
    Ok(())
}
