//! One program on many inputs, and the lists that name them.
use super::cases::repeated;
use super::{answer_to, each, each_crew, expect};
use std::test::Fail;

/// Where the program skips what is behind a negative number. The texts under these names are held in every case.
const SKIPPING: &[&str] = &[
    "batch skip_negative.c in.txt --plan skip.plan |  | $1 => $1",
    "skip.in\nother.in\n => input 1\nstate\nn 12\nregion 1 iterations 4 recovered 1: 1\nend done\ninput 2\nstate\nn 2\nregion 1 iterations 3 recovered 1: 0\nend done\n",
    "other.in\nskip.in\nother.in\n => input 1\nstate\nn 2\nregion 1 iterations 3 recovered 1: 0\nend done\ninput 2\nstate\nn 12\nregion 1 iterations 4 recovered 1: 1\nend done\ninput 3\nstate\nn 2\nregion 1 iterations 3 recovered 1: 0\nend done\n",
    "`64*skip.in\n` => `64*input ^\nstate\nn 12\nregion 1 iterations 4 recovered 1: 1\nend done\n`",
];

/// Each run has its own end, and the status is 0 whatever the ends are: a fault, spent fuel, and done.
const ENDS: &[&str] = &[
    "batch p.c in.txt --fuel 40 | int q; int main() { q = 12 / input[1]; print(q); while (input[1] == -1) { } #pragma dswp while (q > 0) { q = q - 1; } } | $1 => $1",
    "one.in\nzeros.in\n => input 1\nstate\nq 0\nend fault index line 1\ninput 2\nstate\nq 0\nend fault divide line 1\n",
    "skip.in\n => input 1\n-12\nstate\nq -12\nend fuel\n",
    "zeros.in\nother.in\nskip.in\n => input 1\nstate\nq 0\nend fault divide line 1\ninput 2\n2\nstate\nq 0\nregion 1 iterations 3 recovered 0\nend done\ninput 3\n-12\nstate\nq -12\nend fuel\n",
    "`62*other.in\n`skip.in\nzeros.in\n => `62*input ^\n2\nstate\nq 0\nregion 1 iterations 3 recovered 0\nend done\n`input 63\n-12\nstate\nq -12\nend fuel\ninput 64\nstate\nq 0\nend fault divide line 1\n",
];

/// Lists that are refused at this line.
const LINES: &[&str] = &[
    "batch skip_negative.c in.txt |  | $1 => refused list line $1\n",
    " => 1",
    "\n => 1",
    "skip.in => 1",
    "skip.in\nother.in => 2",
    "skip.in\n\n => 2",
    "skip.in\n\nother.in\n => 2",
    "`64*skip.in\n`skip.in\n => 65",
    "`64*skip.in\n`\n => 65",
    "`64*skip.in\n`x => 65",
    "`256*a`\n => 1",
    "skip.in\n`128*ä`\n => 2",
    "none.in\n\n => 2",
];

/// The first refusal or failed read counts, of the list or of its inputs.
const ORDER: &[&str] = &[
    "batch $2.c in.txt $3 |  | $1 => $1\n",
    "bad.in\nskip.in\nother.in\n | skip_negative => refused batch input 1 word 2",
    "skip.in\nbad.in\nnone.in\n | skip_negative => refused batch input 2 word 2",
    "skip.in\nother.in\nbad.in\n | skip_negative | --plan none => refused batch input 3 word 2",
    "none.in\nbad.in\nskip.in\n | skip_negative => failed read input",
    "skip.in\nnone.in\nbad.in\n | skip_negative => failed read input",
    "skip.in\nother.in\nnone.in\n | skip_negative | --plan none => failed read input",
    "skip.in\nskip.in\n | skip_negative | --plan none => failed read plan",
    "skip.in\nskip.in\n | skip_negative | --plan stale.plan => refused plan rule 1 site 6",
    "skip.in\nskip.in\n | skip_negative | --profile none => failed read profile",
    "bad.in\n | none => failed read program",
    "`255*a`\n | skip_negative => failed read input",
    "skip.in\r\n | skip_negative => failed read input",
    " skip.in\n | skip_negative => failed read input",
];

#[test]
fn inputs_of_a_list_are_run(rt: HostRuntime) -> Result<(), Fail> {
    each_crew(&rt, rt.alloc(), SKIPPING)?;
    each(&rt, rt.alloc(), ENDS)?;
    Ok(())
}

#[test]
fn the_first_wrong_line_of_a_list(rt: HostRuntime) -> Result<(), Fail> {
    each(&rt, rt.alloc(), LINES)?;
    each(&rt, rt.alloc(), ORDER)?;
    Ok(())
}

/// A list with bytes that are no UTF-8, and one that is too long.
#[test]
fn lists_of_other_bytes_are_refused(rt: HostRuntime) -> Result<(), Fail> {
    let long = vec![in rt.alloc(); b'\n'; 16_385]?;
    let lists: [(&[u8], &[u8], u8); 4] = [
        (b"skip.in\n\xff\n", b"refused list line 2\n", 4),
        (b"\xc3\n", b"refused list line 1\n", 4),
        (b"skip.in\nsk\xc3\xa4p\n", b"failed read input\n", 5),
        (long.as_slice(), b"limit list-bytes 16385\n", 9),
    ];
    for (list, text, status) in lists {
        let held = [("list.txt", list)];
        let words = "batch skip_negative.c list.txt";
        let answered = answer_to(&rt, rt.alloc(), words, &held, &[], None)?;
        expect(&rt, &answered, text, status, words, "");
    }
    Ok(())
}

/// The first, a middle and the last input has too many words, or too many bytes.
#[test]
fn inputs_of_a_list_that_are_too_long(rt: HostRuntime) -> Result<(), Fail> {
    let words = repeated(rt.alloc(), "`65537*0 `")?;
    let bytes = vec![in rt.alloc(); b'\n'; 2_097_153]?;
    let inputs: [(&[u8], &[u8]); 2] = [
        (words.as_bytes(), b"limit input-words 65537\n"),
        (bytes.as_slice(), b"limit input-bytes 2097153\n"),
    ];
    let lists: [&[u8]; 3] = [
        b"long.in\nbad.in\nnone.in\n",
        b"skip.in\nlong.in\nbad.in\n",
        b"skip.in\nother.in\nlong.in\n",
    ];
    for (long, text) in inputs {
        for list in lists {
            let held = [("list.txt", list), ("long.in", long)];
            let words = "batch skip_negative.c list.txt --plan none";
            let answered = answer_to(&rt, rt.alloc(), words, &held, &[], None)?;
            expect(&rt, &answered, text, 9, words, "");
        }
    }
    Ok(())
}
