//! What people often mean by a token that can't stand.
use crate::expected::has;

/// What a token is often meant for that can't stand, by its text.
const MEANT: [(&[u8], &str); 30] = [
    (b"++", "there is no `++`: write `x = x + 1;`"),
    (
        b"--",
        "there is no `--`: write `x = x - 1;`, and `- -x` for the negative of a negative",
    ),
    (
        b"return",
        "a function gives no value; `return 0;` may stand last in `main` alone",
    ),
    (
        b"break",
        "`if (..) break;` stands at the top of a marked loop's body alone",
    ),
    (
        b"continue",
        "there is no `continue`: put what follows into an `if`",
    ),
    (b"do", "there is no `do`: write a `while`"),
    (b"switch", "there is no `switch`: write `if` and `else if`"),
    (b"goto", "there is no `goto`"),
    (
        b"main",
        "`main` is declared once, as `int main()`, and can't be called",
    ),
    (
        b"print",
        "`print` takes one expression, as a statement: `print(e);`",
    ),
    (
        b"#pragma dswp",
        "the mark stands in front of a `while` or a `for` at the top level of `main`",
    ),
    (b"char", "the only type is `int`, of 64 bits"),
    (b"double", "the only type is `int`, of 64 bits"),
    (b"float", "the only type is `int`, of 64 bits"),
    (b"long", "the only type is `int`, of 64 bits"),
    (b"short", "the only type is `int`, of 64 bits"),
    (b"signed", "the only type is `int`, of 64 bits"),
    (b"unsigned", "the only type is `int`, of 64 bits"),
    (b"_Bool", "the only type is `int`, of 64 bits"),
    (b"struct", "the only type is `int`, of 64 bits"),
    (b"enum", "the only type is `int`, of 64 bits"),
    (b"union", "the only type is `int`, of 64 bits"),
    (b"typedef", "the only type is `int`, of 64 bits"),
    (
        b"const",
        "declarations have no further words: write `int` alone",
    ),
    (
        b"static",
        "declarations have no further words: write `int` alone",
    ),
    (
        b"extern",
        "declarations have no further words: write `int` alone",
    ),
    (
        b"register",
        "declarations have no further words: write `int` alone",
    ),
    (
        b"volatile",
        "declarations have no further words: write `int` alone",
    ),
    (
        b"inline",
        "declarations have no further words: write `void` or `int` alone",
    ),
    (b"sizeof", "there is no `sizeof`"),
];

/// The token that can't stand, between the two before it and the one behind.
#[derive(Clone, Copy)]
pub struct Around<'t> {
    pub first: &'t [u8],
    pub before: &'t [u8],
    pub found: &'t [u8],
    pub behind: &'t [u8],
}

impl Around<'_> {
    /// What is meant where these kinds may stand, or nothing.
    pub fn advice(self, could: &[&str]) -> &'static str {
        let choices = [
            self.on_statements(could),
            self.on_declarations(could),
            self.on_others(could),
            meant(self.found),
        ];
        for advice in &choices {
            if !advice.is_empty() {
                return advice;
            }
        }
        ""
    }

    /// What a statement of C is often meant for that isn't one here.
    fn on_statements(self, could: &[&str]) -> &'static str {
        if matches!(self.found, b"break") && has(could, "{") {
            return "`if (..) break;` stands at the top of a marked loop's body alone; here the condition of the `while` says when it ends";
        }
        if matches!((self.before, self.found), (b"<", b"<") | (b">", b">")) {
            return "there are no shifts: write `x * 8` for `x << 3`, and `x / 8` for `x >> 3` of an `x` that isn't negative";
        }
        let opens = matches!((self.first, self.before), (b"for", b"("));
        let empty = matches!(self.found, b";" | b")")
            && matches!(self.before, b";")
            && !has(could, "print");
        if empty || (opens && matches!(self.found, b";")) {
            return "a `for` has all three parts: `for (i = 0; i < n; i = i + 1)`; a loop without end is `while (1)`";
        }
        ""
    }

    /// The same of a declaration.
    fn on_declarations(self, could: &[&str]) -> &'static str {
        let counts = has(could, "1") && !has(could, "(");
        if (counts && matches!(self.before, b"[") && !matches!(self.found, b"0"))
            || (is_operator(self.found) && has(could, "]") && !has(could, "+"))
        {
            return "the length of an array is a number that stands there: `int a[10];`";
        }
        if (counts && matches!(self.before, b"=" | b"-"))
            || (is_operator(self.found)
                && matches!(self.first, b"=" | b"-")
                && has(could, ";")
                && !has(could, "+"))
        {
            return "a variable at file scope starts with a number that stands there: compute it, or store into it in `main`";
        }
        if matches!((self.before, self.found), (b"]", b"=")) && has(could, ";") {
            return "an array starts with zeros: store into it in `main`";
        }
        if matches!(self.found, b"[") && has(could, ",") && !has(could, "+") {
            return "a parameter is one number; arrays stand at file scope, where each function sees them";
        }
        ""
    }

    /// What else is often meant.
    fn on_others(self, could: &[&str]) -> &'static str {
        if could.is_empty() {
            return "variables and functions stand in front of `main`";
        }
        if is_arithmetic(self.found) && matches!(self.behind, b"=") {
            return "there is no `+=` and the like: write `x = x + ..;`";
        }
        if matches!(self.found, b"(") && has(could, ";") && has(could, "[") {
            return "a function begins with `void`, and gives no value";
        }
        if matches!(self.found, b"0") && has(could, "1") {
            return "an array has one element or more";
        }
        if matches!(self.found, b",") && (has(could, ";") || has(could, "=")) {
            return "a declaration has one variable: write `int a = 0; int b = 0;`";
        }
        if matches!(self.found, b";") && !matches!(self.before, b")") && has(could, "=") {
            return "a local variable is given a value where it is declared: `int x = 0;`";
        }
        if matches!(self.found, b"[") && has(could, "=") {
            return "an array is declared at file scope";
        }
        if matches!(self.found, b";") && has(could, "print") {
            return "there is no empty statement";
        }
        if matches!(self.found, b"{") && has(could, "print") {
            return "a block stands behind `if`, `else`, `while`, `for` and a function's head alone";
        }
        if has(could, "{") && !matches!(self.found, b";") {
            return "the body of a loop, a function and a choice stands in braces, also where it is one statement";
        }
        ""
    }
}

fn is_operator(sign: &[u8]) -> bool {
    is_arithmetic(sign)
        || matches!(
            sign,
            b"<" | b"<=" | b">" | b">=" | b"==" | b"!=" | b"&&" | b"||"
        )
}

fn is_arithmetic(sign: &[u8]) -> bool {
    matches!(sign, b"+" | b"-" | b"*" | b"/" | b"%")
}

fn meant(found: &[u8]) -> &'static str {
    for (text, advice) in &MEANT {
        if *text == found {
            return advice;
        }
    }
    ""
}
