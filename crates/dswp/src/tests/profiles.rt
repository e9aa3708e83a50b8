//! Least plans by a profile: as the verb `plan` writes them, and runs under them.
use super::{answer_to, each, each_crew, expect};
use std::test::Fail;

const WRITTEN: &[&str] = &[
    "plan $1.c --profile $1.prof $2 => plan 2\nregion 1 words 4096\n$1end\n",
    "sum_loop => seq 2 5\nseq 3 4\n",
    "sum_loop | --stages 1 => seq 2 3 4 5\n",
    "sum_loop | --rate 0 => seq 2 5\nseq 3 4\n",
    "sum_loop | --rate 1000 => seq 2\nseq 3\npar 4 5\n",
    "sum_loop | --rate 1000 --stages 2 => seq 2\npar 3 4 5\n",
    "skip_negative => seq 2 6\nseq 3\nseq 4 5 7\n",
    "skip_negative | --stages 2 => seq 2 6\nseq 3 4 5 7\n",
    "skip_negative | --rate 1000 => seq 2\nseq 3\npar 4 6\nseq 5 7\n",
    "skip_negative | --rate 1000 --stages 2 => seq 2 3\nseq 4 5 6 7\n",
];

const RUN: &[&str] = &[
    "run $1.c in.txt --profile $1.prof $2 |  | $3 => $1\n",
    "skip_negative | --stages 2 | 5 -1 7 8 => state\nn 12\nregion 1 iterations 4 recovered 1: 1\nend done",
    "skip_negative |  | 5 -1 7 8 => state\nn 12\nregion 1 iterations 4 recovered 1: 1\nend done",
    "skip_negative |  | 5 6 7 => state\nn 18\nregion 1 iterations 4 recovered 0\nend done",
    "sum_loop => 0\n1\n3\nstate\ns 3\nregion 1 iterations 4 recovered 0\nend done",
    "sum_loop | --rate 1000 => 0\n1\n3\nstate\ns 3\nregion 1 iterations 4 recovered 2: 1 3\nend done",
];

/// The words, the numbers of runs of site 3 and what is behind them.
const REFUSED: &[&str] = &[
    "$1 sum_loop.c --profile plan.txt |  |  | profile 1\nregion 1\nruns 2 4 3\nruns 3 $2runs 4 3 0\nruns 5 3 0\n$3 => refused profile line $1\n",
    "run | 3 1\n | end\n => 4",
    "plan | 3 1\n | end\n => 4",
    "run | 3 0\n => 7",
    "plan | 3 0\n | flow 3 4 intra 3\nflow 3 3 carried 2\nend\n => 8",
    "plan | 3 0\n | flow 1 3 intra 3\nend\n => 7",
    "run | 3 0\n | end => 7",
    "run | 3 0\n | end\nend\n => 8",
];

/// Another first line, a program without regions, and one with two of them, each of which has its own counts.
const FIRST: &[&str] = &[
    "plan p.c --profile plan.txt | $2int main() { $3} |  | $1 => $1\n",
    " => refused profile line 1",
    "profile 2\nend\n => refused profile line 1",
    "plan 2\nend\n => refused profile line 1",
    "profile 1\nregion 1\nend\n => refused profile line 2",
    "profile 1\nend\n => plan 2\nend",
    "profile 1\nregion 1\nruns 1 3 2\nruns 2 2 0\nflow 2 1 carried 2\nflow 2 2 carried 1\nregion 2\nruns 3 10 9\nruns 4 9 0\nend\n | int i; int n;  | #pragma dswp while (i < 2) { i = i + 1; } #pragma dswp while (n < 9) { n = n + 1; }  => plan 2\nregion 1 words 4096\nseq 1 2\nregion 2 words 4096\nseq 3\nseq 4\nend",
];

/// A profile is read last, and the first refusal counts.
const ORDER: &[&str] = &[
    "$1 | $2 | 1 x | profile => $1\n",
    "run p.c in.txt --profile plan.txt | int main() { } => refused input word 2",
    "run none.c none.txt --profile none => failed read program",
    "run p.c none.txt --profile none | int main() { } => failed read input",
    "run p.c --profile none | int main() { } => failed read profile",
    "run p.c --profile plan.txt | int main() { } => refused profile line 1",
    "plan p.c --profile none | int main() { => refused program syntax token 5",
    "plan p.c --profile none | int main() { } => failed read profile",
];

#[test]
fn plans_are_made_by_profiles(rt: HostRuntime) -> Result<(), Fail> {
    for table in [WRITTEN, REFUSED, FIRST, ORDER] {
        each(&rt, rt.alloc(), table)?;
    }
    each_crew(&rt, rt.alloc(), RUN)?;
    Ok(())
}

#[test]
fn long_profiles_are_refused(rt: HostRuntime) -> Result<(), Fail> {
    let long = vec![in rt.alloc(); b'\n'; 67_108_865]?;
    let held = [("plan.txt", long.as_slice())];
    let words = "plan sum_loop.c --profile plan.txt";
    let answered = answer_to(&rt, rt.alloc(), words, &held, &[], None)?;
    expect(&rt, &answered, b"limit profile-bytes 67108865\n", 9, "", "");
    Ok(())
}
