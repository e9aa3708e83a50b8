//! How the words and the signs that the grammar uses are spelled. Tables name them from here.

pub const MAIN: &[u8] = b"main";

pub const PRINT: &[u8] = b"print";

pub const BREAK: &[u8] = b"break";

pub const ELSE: &[u8] = b"else";

pub const FOR: &[u8] = b"for";

pub const IF: &[u8] = b"if";

pub const INT: &[u8] = b"int";

pub const RETURN: &[u8] = b"return";

pub const VOID: &[u8] = b"void";

pub const WHILE: &[u8] = b"while";

pub const PLUS: &[u8] = b"+";

pub const MINUS: &[u8] = b"-";

pub const STAR: &[u8] = b"*";

pub const SLASH: &[u8] = b"/";

pub const PERCENT: &[u8] = b"%";

pub const NOT: &[u8] = b"!";

pub const LESS: &[u8] = b"<";

pub const LESS_EQUAL: &[u8] = b"<=";

pub const GREATER: &[u8] = b">";

pub const GREATER_EQUAL: &[u8] = b">=";

pub const EQUAL: &[u8] = b"==";

pub const NOT_EQUAL: &[u8] = b"!=";

pub const AND: &[u8] = b"&&";

pub const OR: &[u8] = b"||";

pub const ASSIGN: &[u8] = b"=";

pub const OPEN_PAREN: &[u8] = b"(";

pub const CLOSE_PAREN: &[u8] = b")";

pub const OPEN_BRACKET: &[u8] = b"[";

pub const CLOSE_BRACKET: &[u8] = b"]";

pub const OPEN_BRACE: &[u8] = b"{";

pub const CLOSE_BRACE: &[u8] = b"}";

pub const COMMA: &[u8] = b",";

pub const SEMICOLON: &[u8] = b";";
