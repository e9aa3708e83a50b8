//! What stands at the front of a text: white space, a comment or a token.

ghost use Rattle.std.specs.Prelude.{◌≡◌, ◌<◌, ◌≤◌, ◌+◌, take, length, slice_index, All, IfSome, IsTrue, true};
ghost use Rattle.std.specs.Char.{is_ascii_digit};
ghost use Rattle.std.specs.List.{prefix_len};
ghost use Rattle.dp_lex.specs.Characters as bytes;
ghost use Rattle.dp_lex.specs.Scan as spec;

use crate::TokenKind;
use crate::tables::{is_reserved, is_sign};

#[derive(Clone, Copy)]
enum Class {
    Gap,
    Digit,
    Word,
    /// What a comment up to the end of its line may hold.
    Comment,
}

/// A token's kind, and its length in bytes.
pub type Found = Option<(TokenKind, usize)>;

/// The largest number that a program can write.
const LARGEST: u64 = 9_223_372_036_854_775_807;

fn is_gap(b: u8) -> bool
    ensures { result ≡ bytes.is_gap b }
{
    b == b' ' || b == b'\t'
}

fn is_white(b: u8) -> bool
    ensures { result ≡ bytes.is_white b }
{
    is_gap(b) || b == b'\r' || b == b'\n'
}

fn is_letter(b: u8) -> bool
    ensures { result ≡ bytes.is_letter b }
{
    b.is_ascii_alphabetic() || b == b'_'
}

fn is_word(b: u8) -> bool
    ensures { result ≡ bytes.is_word b }
{
    is_letter(b) || b.is_ascii_digit()
}

fn is_in(class: Class, b: u8) -> bool
    ensures { result ≡ spec.is_in class b }
{
    match class {
        Class::Gap => is_gap(b),
        Class::Digit => b.is_ascii_digit(),
        Class::Word => is_word(b),
        Class::Comment => b != b'\n',
    }
}

/// The byte at a place, or 0 past the end.
fn byte(z: &[u8], at: usize) -> u8
    ensures { result ≡ slice_index z.now at }
{
    if at < z.len() { z[at] } else { 0 }
}

/// How many bytes at the front are of the class.
fn run(class: Class, z: &[u8]) -> usize
    ensures value { result ≡ prefix_len (spec.is_in class) z.now }
    ensures within { result ≤ length z.now }
    ensures passes { All (λ b. spec.is_in class b ≡ true) (take result z.now) }
    ensures some { 0 < length z.now → spec.is_in class (slice_index z.now 0) ≡ true → 0 < result }
{
    let mut end = 0;
    while end < z.len() && is_in(class, z[end]) {
        end += 1;
    }
    end
}

#[tactic(auto, unfolding(crate::specs::Scan::opens_comment))]
fn opens_comment(z: &[u8]) -> bool
    ensures value { result ≡ spec.opens_comment z.now }
    ensures two { IsTrue result → 2 ≤ length z.now }
{
    byte(z, 0) == b'/' && (byte(z, 1) == b'/' || byte(z, 1) == b'*')
}

/// `*/` stands at the place.
fn closes(z: &[u8], at: usize) -> bool
    requires { at < length z.now }
    ensures value { result ≡ spec.closes_comment z.now at }
    ensures within { IsTrue result → at + 2 ≤ length z.now }
{
    z[at] == b'*' && byte(z, at + 1) == b'/'
}

/// The length up to the first `*/` and with it.
fn closing(z: &[u8]) -> Option<usize>
    ensures value { result ≡ spec.closing z.now }
    ensures within { IfSome result (λ n. n ≤ length z.now) }
{
    for at in 0..z.len() {
        if closes(z, at) {
            return Some(at + 2);
        }
    }
    None
}

/// How many bytes are skipped at the front: one of white space, a comment, or none.
#[tactic(auto, unfolding(crate::specs::Scan::skipped))]
pub fn skipped(z: &[u8]) -> usize
    ensures value { result ≡ spec.skipped z.now }
    ensures within { result ≤ length z.now }
{
    if is_white(byte(z, 0)) {
        return 1;
    }
    if !opens_comment(z) {
        return 0;
    }
    if byte(z, 1) == b'/' {
        return run(Class::Comment, z);
    }
    match closing(&z[2..]) {
        None => 0,
        Some(n) => 2 + n,
    }
}

#[tactic(auto, unfolding(crate::specs::Scan::word))]
fn word(z: &[u8]) -> Found
    requires { bytes.is_letter (slice_index z.now 0) ≡ true }
    ensures value { result ≡ spec.word z.now }
    ensures within { IfSome result (λ found. (1 ≤ found.1) × (found.1 ≤ length z.now)) }
{
    let n = run(Class::Word, z);
    let kind = if is_reserved(&z[..n]) {
        TokenKind::Reserved
    } else {
        TokenKind::Name
    };
    Some((kind, n))
}

/// The value of the digits is at most the largest number.
#[tactic(auto, unfolding(crate::specs::Scan::fits_number))]
fn fits(digits: &[u8]) -> bool
    requires { All (λ b. is_ascii_digit b ≡ true) digits.now }
    ensures { result ≡ spec.fits_number digits.now }
{
    let mut value: u64 = 0;
    for b in digits {
        let digit = u64::from(*b - b'0');
        if value > (LARGEST - digit) / 10 {
            return false;
        }
        value = value * 10 + digit;
    }
    true
}

#[tactic(auto, unfolding(crate::specs::Scan::number_scanned))]
fn number(z: &[u8]) -> Found
    requires { is_ascii_digit (slice_index z.now 0) ≡ true }
    ensures value { result ≡ spec.number_scanned z.now }
    ensures within { IfSome result (λ found. (1 ≤ found.1) × (found.1 ≤ length z.now)) }
{
    let n = run(Class::Digit, z);
    let digits = &z[..n];
    let is_plain = n == 1 || byte(digits, 0) != b'0';
    if is_plain && fits(digits) && !is_word(byte(z, n)) {
        Some((TokenKind::Number, n))
    } else {
        None
    }
}

/// The name of the mark stands at the front.
#[tactic(auto, unfolding(crate::specs::Scan::is_named))]
fn is_named(z: &[u8]) -> bool
    ensures value { result ≡ spec.is_named z.now }
    ensures within { IsTrue result → 4 ≤ length z.now }
{
    z.starts_with(b"dswp") && !is_word(byte(z, 4))
}

#[tactic(auto, unfolding(crate::specs::Scan::mark, crate::specs::Scan::is_pragma))]
fn mark(z: &[u8]) -> Found
    ensures value { result ≡ spec.mark z.now }
    ensures within { IfSome result (λ found. (1 ≤ found.1) × (found.1 ≤ length z.now)) }
{
    if !z.starts_with(b"#pragma") {
        return None;
    }
    let rest = &z[7..];
    let n = run(Class::Gap, rest);
    if 0 < n && is_named(&rest[n..]) {
        Some((TokenKind::Mark, 11 + n))
    } else {
        None
    }
}

#[tactic(auto, unfolding(crate::specs::Scan::sign))]
fn sign(z: &[u8]) -> Found
    requires { 0 < length z.now }
    ensures value { result ≡ spec.sign z.now }
    ensures within { IfSome result (λ found. (1 ≤ found.1) × (found.1 ≤ length z.now)) }
{
    if 2 <= z.len() && is_sign(&z[..2]) {
        Some((TokenKind::Sign, 2))
    } else if is_sign(&z[..1]) {
        Some((TokenKind::Sign, 1))
    } else {
        None
    }
}

/// The token at the front, if one begins there.
#[tactic(auto, unfolding(crate::specs::Scan::front))]
pub fn front(z: &[u8]) -> Found
    requires { 0 < length z.now }
    ensures value { result ≡ spec.front z.now }
    ensures within { IfSome result (λ found. (1 ≤ found.1) × (found.1 ≤ length z.now)) }
{
    let first = byte(z, 0);
    if opens_comment(z) {
        None
    } else if is_letter(first) {
        word(z)
    } else if first.is_ascii_digit() {
        number(z)
    } else if first == b'#' {
        mark(z)
    } else {
        sign(z)
    }
}
