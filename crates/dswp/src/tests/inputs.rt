//! The words of an input.
use super::each;
use std::test::Fail;

const TAKEN: &[&str] = &[
    "run p.c in.txt | int main() { int i = 0; while (i < input_len) { print(input[i]); i = i + 1; } } | $1 => $1state\nend done\n",
    " => ",
    " \t\r\n \n => ",
    "0 => 0\n",
    "1 2 3 => 1\n2\n3\n",
    "1\t2\r3\n4\r\n5 => 1\n2\n3\n4\n5\n",
    "  12   -34\n => 12\n-34\n",
    "\n\n7 => 7\n",
    "007 -000 -0012 => 7\n0\n-12\n",
    "9223372036854775807 -9223372036854775807 => 9223372036854775807\n-9223372036854775807\n",
    "-9223372036854775808 => -9223372036854775808\n",
    "00000000000000000000000000000009223372036854775807 => 9223372036854775807\n",
    "-00000000000000000000000000000000000000000000000001 => -1\n",
    "1000000000 2000000000000000000 => 1000000000\n2000000000000000000\n",
    "`65536*0 ` => `65536*0\n`",
    "`2097152* ` => ",
];

const REFUSED: &[&str] = &[
    "run p.c in.txt | int main() { } | $1 => $1\n",
    "1 x 3 => refused input word 2",
    "x y => refused input word 1",
    "1 2 3x 4y => refused input word 3",
    "9223372036854775808 => refused input word 1",
    "-9223372036854775809 => refused input word 1",
    "18446744073709551615 => refused input word 1",
    "18446744073709551616 => refused input word 1",
    "18446744073709551621 => refused input word 1",
    "100000000000000000000000000000 => refused input word 1",
    "- => refused input word 1",
    "--5 => refused input word 1",
    "+5 => refused input word 1",
    "5 -6- 7 => refused input word 2",
    "5 - 7 => refused input word 2",
    "1\x0b2 => refused input word 1",
    "1 \x0c2 => refused input word 2",
    "1\x002 => refused input word 1",
    "3 0x10 => refused input word 2",
    "4 ä => refused input word 2",
    "`65535*1 `x => refused input word 65536",
    "`65537*0 ` => limit input-words 65537",
    "`65536*1 `x => limit input-words 65537",
    "`70000*1 ` => limit input-words 70000",
    "`999999*1 `1 => limit input-words 1000000",
    "`1000000*1 `1 => limit input-words 1000000",
    "`2097153* ` => limit input-bytes 2097153",
];

/// An input that isn't named has no words.
const WITHOUT: &[&str] = &[
    "run $1 | int main() { print(input_len); } | 1 2 => $1\nstate\nend done\n",
    "p.c => 0",
    "p.c in.txt => 2",
];

#[test]
fn inputs_are_words(rt: HostRuntime) -> Result<(), Fail> {
    for table in [TAKEN, REFUSED, WITHOUT] {
        each(&rt, rt.alloc(), table)?;
    }
    Ok(())
}
