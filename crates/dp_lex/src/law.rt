//! Laws of the definitions, as functions whose contracts state them.

ghost use Rattle.std.specs.Prelude.{◌≡◌, ◌⊎◌, ℕ, List, Option, Result};
ghost use Rattle.dp_lex.specs.declared.LexRefused.{LexRefused};
ghost use Rattle.dp_lex.specs.declared.Token.{Token};
ghost use Rattle.dp_lex.specs.Token.{Lexeme};
ghost use Rattle.dp_lex.specs.Tokens.{Tokens, RefusedAt, Reading, IsNextToken, IsLastAnswer};

/// A text either has its tokens, and in one way only, or is refused, and at one place only.
pub fn each_text_is_read_in_one_way(text: &[u8])
    ensures either { ((tokens : List Lexeme) × Tokens text.now tokens) ⊎ ((place : ℕ) × RefusedAt text.now place) }
    ensures not_both { (tokens : List Lexeme) (place : ℕ) → Tokens text.now tokens → RefusedAt text.now place → ⊥ }
    ensures one_list { (tokens others : List Lexeme) → Tokens text.now tokens → Tokens text.now others → tokens ≡ others }
    ensures one_place { (place other : ℕ) → RefusedAt text.now place → RefusedAt text.now other → place ≡ other }
{}

/// After the end or a refusal a lexer's next answer is the same.
pub fn a_last_answer_is_given_again()
    ensures { (from to after : Reading) (answer next : Result (Option Token) LexRefused) → to.text ≡ from.text → IsLastAnswer answer →
        IsNextToken from answer to → IsNextToken to next after → next ≡ answer }
{}
