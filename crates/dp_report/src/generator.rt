//! The program that is made for measurements, with its input.

ghost use Rattle.std.specs.Prelude.{◌≡◌, ◌≤◌, ◌<◌, ◌∷◌, ◌++◌, [], pos, IfOk, OnOk};
ghost use Rattle.dp_report.specs.Generator.{made_text, next_number, words_after};

use dp_base::{NoMemory, Row};
use std::alloc::Global;

/// A program's text, and the words of its input.
#[derive(Drop)]
pub struct Made {
    pub text: Row<u8>,
    pub words: Row<i64>,
}

const TEXT: &[u8] =
    b"int hist[16];\nint sum;\nint main() {\n  int i = 0;\n  #pragma dswp\n  while (i < input_len) {\n    int x = input[i];\n    i = i + 1;\n    int a = x % 16;\n    int b = (a * 5 + 3) % 16;\n    int c = (b * 5 + 3) % 16;\n    int d = (c * 5 + 3) % 16;\n    int y = (d * 5 + 3) % 16;\n    hist[y] = hist[y] + 1;\n    sum = sum + y;\n  }\n}\n";

/// A histogram with one region, and so many words for it. The text is the same for each seed and size.
pub fn make_program(alloc: Global, seed: u32, size: u32) -> Result<Made, NoMemory>
    requires seed { seed < 2147483648 }
    requires some { 1 ≤ size }
    requires most { size ≤ 65536 }
    ensures text { IfOk result (λ made. made.text ≡ made_text) }
    ensures words { IfOk result (λ made. made.words ≡ words_after seed size) }
{
    let text = made_text(alloc)?;
    let words = made_words(alloc, seed, size)?;
    Ok(Made { text, words })
}

#[tactic(auto, unfolding(crate::specs::Generator::made_text))]
fn made_text(alloc: Global) -> Result<Row<u8>, NoMemory>
    ensures { IfOk result (λ text. text ≡ made_text) }
{
    Row::from_slice(alloc, TEXT)
}

fn made_words(alloc: Global, seed: u32, size: u32) -> Result<Row<i64>, NoMemory>
    requires { seed < 2147483648 }
    ensures { IfOk result (λ words. words ≡ words_after seed size) }
{
    let mut words = Row::new(alloc);
    let mut number = seed;
    for _ in 0..size {
        number = next_number(number);
        put_word(&mut words, number)?;
    }
    Ok(words)
}

fn put_word(words: &mut Row<i64>, number: u32) -> Result<(), NoMemory>
    ensures { OnOk result (words.new ≡ words.old ++ pos number ∷ []) }
{
    words.push(i64::from(number))
}

/// The number behind this one.
fn next_number(number: u32) -> u32
    requires { number < 2147483648 }
    ensures value { result ≡ next_number number }
    ensures small { result < 2147483648 }
{
    ((u64::from(number) * 1_103_515_245 + 12_345) % 2_147_483_648) as u32
}
