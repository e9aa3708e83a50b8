//! A law of the grammar.

ghost use Rattle.std.specs.Prelude.{◌≡◌, List};
ghost use Rattle.dp_lex.specs.Token.{Lexeme};
ghost use Rattle.dp_tree.specs.declared.raw.RawProgram.{RawProgram};
ghost use Rattle.dp_parse.specs.Programs.{Derives};

/// No tokens derive two programs.
pub fn no_tokens_derive_two_programs()
    ensures { (tokens : List Lexeme) (p q : RawProgram) → Derives tokens p → Derives tokens q → p ≡ q }
{}
