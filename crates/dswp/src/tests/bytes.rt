//! The bytes of a program: where no token begins, and what stands between tokens.
use super::{answer_to, each};
use std::test::Fail;

const REFUSED: &[&str] = &[
    "check p.c | $1 => refused program byte $1\n",
    "#pragma dswpx => 0",
    "#pragma dswp_ => 0",
    "#pragma dswp1 => 0",
    "#pragmadswp => 0",
    "#pragma\ndswp => 0",
    "#pragma/**/dswp => 0",
    "# pragma dswp => 0",
    "#pragma dsw => 0",
    "#pragma  => 0",
    "#Pragma dswp => 0",
    "a # => 2",
    "& => 0",
    "a &b => 2",
    "x & y => 2",
    "&&& => 2",
    "a |= b => 2",
    "a\n~ => 2",
    "a.b => 1",
    "'a' => 0",
    "\" => 0",
    "a\\ => 1",
    "a ? b => 2",
    "a\x0b => 1",
    "a \x0c => 2",
    "\x00 => 0",
    "int main() { print(1); } ä => 25",
    "int main() { /*  => 13",
    "/* => 0",
    "/*/ => 0",
    "a // b\n /* c * => 8",
    "00 => 0",
    " 007 => 1",
    "{{{{ 007 => 5",
    "int main() { print(007); } => 19",
    "x = 12ab; => 4",
    "0x1f => 0",
    "1_ => 0",
    "9223372036854775808 => 0",
    "int main() { print(9223372036854775808); } => 19",
    "10000000000000000000000000000000000000000 => 0",
    "18446744073709551617 => 0",
    "`65536*9` => 0",
    "`65*{` & => 66",
    "`65*{`? => 65",
];

const READ: &[&str] = &[
    "check p.c | $1 => $1\n",
    "\n\n/* \n\n */ int main() { // \n x = 1; } => refused program unknown line 6",
    "int main() {\r\nx = 1; } => refused program unknown line 2",
    "int main() {\rx = 1; } => refused program unknown line 1",
    "int/**/main(/***/)/* a * / b **/{/*/ a /*/}// up to the end => ok",
    "int main() { }// => ok",
    "int main() { print(1// /*\n); } => ok\nsite 1 line 1 print",
    "int main() { print(- -2); print(6*/**/2);\nprint(1<=2); } => ok\nsite 1 line 1 print\nsite 2 line 1 print\nsite 3 line 2 print",
    "int main() { print(!!2); print(0==1); print(3!=-1); } => ok\nsite 1 line 1 print\nsite 2 line 1 print\nsite 3 line 1 print",
    "int main() { print(--2); } => refused program syntax token 7",
    "int main() { print(1 <== 2); } => refused program syntax token 9",
    "int mains; int Main; int _main; int main_; int _; int _1; int aZ_09; int main() { } => ok",
    "int _bool; int dou; int doubles; int dswp; int pragma; int include; int main() { } => ok",
    "int double; int main() { } => refused program syntax token 1",
    "int _Bool; int main() { } => refused program syntax token 1",
    "int _Imaginary; int main() { } => refused program syntax token 1",
    "int print; int main() { } => refused program syntax token 1",
    "int x = 9223372036854775807; int main() { } => ok",
    "int main() { #pragma \t  dswp\nwhile (0) { } } => ok\nregion 1 line 2 sites 1 to 1\nsite 1 line 2 while",
    "int main() { #pragma dswp/**/while (0) { } } => ok\nregion 1 line 1 sites 1 to 1\nsite 1 line 1 while",
    "`65535*\n`x => refused program syntax token 0",
];

/// Bytes that are no text, outside comments and in one.
const NO_TEXT: [(&[u8], &[u8]); 4] = [
    (b"x \x80", b"refused program byte 2\n"),
    (b"x\xff", b"refused program byte 1\n"),
    (b"\xc3", b"refused program byte 0\n"),
    (b"int main() { // \xff \x00\n}", b"ok\n"),
];

#[test]
fn tokens_are_cut_from_bytes(rt: HostRuntime) -> Result<(), Fail> {
    each(&rt, rt.alloc(), REFUSED)?;
    each(&rt, rt.alloc(), READ)?;
    for (program, text) in NO_TEXT {
        let answered = answer_to(&rt, rt.alloc(), "check p.c", &[("p.c", program)], &[], None)?;
        assert_eq!(&rt; answered.sink.bytes(), text);
    }
    Ok(())
}
