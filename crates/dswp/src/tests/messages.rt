//! What people are told of refused words and texts.
use super::{shelf_of, words_of};
use dp_edge::MemSink;
use dp_messages::tell;
use std::test::Fail;

/// The words, what `p.c` and `in.txt` hold, the status, and the message.
const TOLD: &[(&str, &str, &str, u8, &str)] = &[
    (
        "run p.c",
        "int main() { int x = 1 }",
        "",
        3,
        "p.c:1:24: error: expected `;` or an operator, found `}`\n    1 | int main() { int x = 1 }\n      |                        ^\n",
    ),
    (
        "run p.c",
        "int total;\nint main() {\n\ttotl = 1;\n}\n",
        "",
        3,
        "p.c:3:2: error: `totl` is no variable that is visible here\n    3 | \ttotl = 1;\n      | \t^^^^\n      = hint: `total` is visible here\n",
    ),
    (
        "check p.c",
        "int main() { print(1 & 2); }",
        "",
        3,
        "p.c:1:22: error: no token begins with a single `&`\n    1 | int main() { print(1 & 2); }\n      |                      ^\n      = hint: `&&` is an operator; there are no pointers and no operators on bits\n",
    ),
    (
        "profile p.c in.txt",
        "int main() { }",
        "1\n2 x",
        4,
        "in.txt:2:3: error: word 3 is no number of 64 bits\n    2 | 2 x\n      |   ^\n      = hint: a number is an optional `-` and decimal digits\n",
    ),
    (
        "run p.c in.txt",
        "int a[65537]; int main() { }",
        "",
        9,
        "p.c:1:5: error: 65537 cells are needed by the file-scope variables, and at most 65536 may be\n    1 | int a[65537]; int main() { }\n      |     ^ the limit is passed here\n      = hint: shorten an array\n",
    ),
    (
        "run none.c",
        "",
        "",
        5,
        "none.c: error: the program can't be read\n      = hint: there is no such file, it is a folder, or it may not be read; names are looked up from the folder of the call\n",
    ),
    (
        "run p.c --plan a --profile b",
        "",
        "",
        2,
        "error: '--plan' cannot be used with '--profile': a text of plans needs no profile\n",
    ),
    ("run p.c", "int main() { }", "", 6, ""),
];

#[test]
fn messages_are_told(rt: HostRuntime) -> Result<(), Fail> {
    let alloc = rt.alloc();
    for (words, program, input, status, message) in TOLD {
        let list = words_of(alloc, words)?;
        let held = [("p.c", program.as_bytes()), ("in.txt", input.as_bytes())];
        let mut shelf = shelf_of(alloc, &held, &[])?;
        let mut sink = MemSink::new(alloc, None);
        let told = tell(alloc, list.as_slice(), &mut shelf, *status, &[], &mut sink);
        assert!(rt; told.is_ok(), "{words}");
        let text = str::from_utf8(sink.bytes()).unwrap_or("no text");
        assert_eq!(rt; text, *message, "{words}");
    }
    Ok(())
}
