//! Expressions: their values, their order and their faults.
use super::each;
use std::test::Fail;

/// `m` is the greatest number and `l` the least.
const AT_THE_EDGES: &[&str] = &[
    "run p.c | int main() { int m = 9223372036854775807; int l = -m - 1; print($1); print($2); print($3); } => $1\n$2\n$3\nstate\nend done\n",
    "2 + 3 | m + 0 | m + l => 5 | 9223372036854775807 | -1",
    "l + 1 + - 1 | 2 - 3 | - 1 - l => -9223372036854775808 | -1 | 9223372036854775807",
    "l - l | - 4 * 5 | l * 0 => 0 | -20 | 0",
    "l * 1 | m * - 1 | 3037000499 * 3037000499 => -9223372036854775808 | -9223372036854775807 | 9223372030926249001",
    "- 4611686018427387904 * 2 | 7 / 2 | - 7 / 2 => -9223372036854775808 | 3 | -3",
    "7 / - 2 | - 7 / - 2 | - 1 / 2 => -3 | 3 | 0",
    "l / 1 | l / l | l / m => -9223372036854775808 | 1 | -1",
    "m / l | 7 % 2 | - 7 % 2 => 0 | 1 | -1",
    "7 % - 2 | - 7 % - 2 | l % 1 => 1 | -1 | 0",
    "l % - 2 | l % m | m % l => 0 | -1 | 9223372036854775807",
    "1 < 2 | 2 < 2 | 2 < 1 => 1 | 0 | 0",
    "l < m | 2 <= 2 | 2 <= 1 => 1 | 1 | 0",
    "2 > 2 | 2 > 1 | 1 > 2 => 0 | 1 | 0",
    "2 >= 2 | 1 >= 2 | 2 >= 1 => 1 | 0 | 1",
    "2 == 2 | 1 == 2 | 2 != 2 => 1 | 0 | 0",
    "1 != 2 | - 0 | - 5 => 1 | 0 | -5",
    "- m | !0 | !1 => -9223372036854775807 | 1 | 0",
    "!- 1 | !l | - - 5 => 0 | 0 | 5",
    "0 && 1 / 0 | 1 || 1 / 0 | 5 && 7 => 0 | 1 | 1",
    "3 && 0 | 0 || 0 | 0 || 9 => 0 | 0 | 1",
];

const FAULTS: &[&str] = &[
    "run p.c | int main() { int m = 9223372036854775807; int l = -m - 1; print($1); } => state\nend fault $1 line 1\n",
    "m + 1 => overflow",
    "l + - 1 => overflow",
    "l + l => overflow",
    "l - 1 => overflow",
    "m - - 1 => overflow",
    "0 - l => overflow",
    "- 2 - m => overflow",
    "l * - 1 => overflow",
    "- 1 * l => overflow",
    "m * 2 => overflow",
    "3037000500 * 3037000500 => overflow",
    "4611686018427387904 * 2 => overflow",
    "4294967296 * 4294967296 => overflow",
    "l / - 1 => overflow",
    "l % - 1 => overflow",
    "- l => overflow",
    "1 / 0 => divide",
    "0 / 0 => divide",
    "l / 0 => divide",
    "1 % 0 => divide",
    "l % 0 => divide",
    "1 && 1 / 0 => divide",
    "0 || 1 / 0 => divide",
    "input[0] => index",
    "input[-1] => index",
    "input[1 / 0] => divide",
    "1 / 0 + (m + 1) => divide",
    "m + 1 + 1 / 0 => overflow",
];

/// Statements of one line; an element's index comes first, then the value, and then the bound.
const STATEMENTS: &[&str] = &[
    "run p.c | int x; int a[2]; int main() { $1 } => $1\n",
    "x = 9223372036854775807 + 1; => state\nx 0\na 0 0\nend fault overflow line 1",
    "x = (-9223372036854775807 - 1) / -1; => state\nx 0\na 0 0\nend fault overflow line 1",
    "x = (-9223372036854775807 - 1) % -1; => state\nx 0\na 0 0\nend fault overflow line 1",
    "print(-7 / 2); print(-7 % 2); => -3\n-1\nstate\nx 0\na 0 0\nend done",
    "a[5] = 1 / 0; => state\nx 0\na 0 0\nend fault divide line 1",
    "a[1 / 0] = 9223372036854775807 + 1; => state\nx 0\na 0 0\nend fault divide line 1",
    "a[5] = 1; => state\nx 0\na 0 0\nend fault index line 1",
    "a[0 - 1] = 1; => state\nx 0\na 0 0\nend fault index line 1",
    "a[2] = x; => state\nx 0\na 0 0\nend fault index line 1",
    "x = a[2]; => state\nx 0\na 0 0\nend fault index line 1",
    "print(0 && 1 / 0); print(1 || 1 / 0); => 0\n1\nstate\nx 0\na 0 0\nend done",
    "print(input[0]); => state\nx 0\na 0 0\nend fault index line 1",
    "x = - -5; a[0] = !x; a[1] = !0; => state\nx 5\na 0 1\nend done",
    "x = 2 + 3 * 4 - 10 / 3 % 2; a[0] = 7 - 2 - 1; => state\nx 13\na 4 0\nend done",
    "x = 1 < 2 == 1; a[0] = 3 >= 3 && 2 != 2 || 5 > 4; a[1] = 4 <= 3; => state\nx 1\na 1 0\nend done",
    "if (x) { a[0] = 1; } else if (a[1]) { a[0] = 2; } else { a[0] = 3; } print(a[0]); => 3\nstate\nx 0\na 3 0\nend done",
    "if (1) { int y = 1; print(y); } else { int y = 2; print(y); } while (0) { int y = 3; } => 1\nstate\nx 0\na 0 0\nend done",
    "print(0 - 3); print(0 - 1); print(10); print(9); print(0 - 10); => -3\n-1\n10\n9\n-10\nstate\nx 0\na 0 0\nend done",
    "int i = 9; a[1] = 7; x = 3; => state\nx 3\na 0 7\nend done",
    "a[0] = 0 - 1; a[1] = 0 - 9223372036854775807 - 1; x = 10; => state\nx 10\na -1 -9223372036854775808\nend done",
    "\nx = 1;\nx = 9223372036854775807 + x; => state\nx 1\na 0 0\nend fault overflow line 3",
    "\n\n\n\nx = 1 / x; => state\nx 0\na 0 0\nend fault divide line 5",
    "if\n(x == 0)\n{ x =\n1\n/ 0; } => state\nx 0\na 0 0\nend fault divide line 3",
    "while (x < 3) {\nx = x + 1;\nprint(6 / (2 - x)); } => 6\nstate\nx 2\na 0 0\nend fault divide line 3",
    "if (x) { } else\nif (1 / x) { } => state\nx 0\na 0 0\nend fault divide line 2",
];

/// Each prints another number where operators are grouped in another way.
const GROUPS: &[&str] = &[
    "run p.c | int a[4]; int main() { a[2] = 2; a[3] = 7; print($1); print($2); print($3); } => $1\n$2\n$3\nstate\na 0 0 2 7\nend done\n",
    "7 - 2 - 1 | 7 - (2 - 1) | 9 - 2 * 3 => 4 | 6 | 3",
    "2 * 3 - 9 | 100 / 7 % 5 * 3 | 3 < 2 == 0 => -3 | 12 | 1",
    "2 == 3 < 1 | 2 == 2 != 2 | 1 < 2 <= 1 > 0 >= 1 => 0 | 1 | 1",
    "1 + 2 < 6 - 2 | 0 && 1 || 1 && 1 | 1 || 0 && 0 => 1 | 1 | 1",
    "2 && 2 == 2 | - 1 - 2 | - - 5 => 1 | -3 | 5",
    "1 - - 2 | !0 == 2 | -!a[1] + 2 => 3 | 0 | 1",
    "2 * (3 + 4) | ((5)) | a[1 + a[2]] % 4 => 14 | 5 | 3",
];

#[test]
fn values_and_faults(rt: HostRuntime) -> Result<(), Fail> {
    for table in [AT_THE_EDGES, FAULTS, STATEMENTS, GROUPS] {
        each(&rt, rt.alloc(), table)?;
    }
    Ok(())
}
