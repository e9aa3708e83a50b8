//! A log that is compared piece by piece with the text that is expected.
ghost use Rattle.std.specs.Prelude.{◌≡◌, ◌≤◌, ◌++◌, [], length, take, List, ℕ, IfNone, IfSome};
ghost use Rattle.dp_auditor.specs.Answered.{Answers};
ghost use Rattle.dp_auditor.specs.Comparing as definition;

use crate::AuditEnd;
use std::marker::Model;

/// A log, and how many of its bytes are as expected.
#[derive(Drop)]
pub(crate) struct Comparing<'l> {
    log: &'l [u8],
    place: usize,
}

impl<'l> Model for Comparing<'l> {
    ghost use Rattle.std.specs.Prelude.{◌≤◌, length};
    ghost use Rattle.dp_auditor.specs.Comparing.{Compared};

    ghost Value = { Compared };

    ghost view = { λ c. record { log = c.log.now; place = c.place } };

    ghost invariant = { λ c. (c.place ≤ length c.log.now) × (length c.log.now ≤ 16777216) };
}

/// How many bytes two texts share at their front.
fn shared(one: &[u8], other: &[u8]) -> usize
    ensures { result ≡ definition.shared one.now other.now }
{
    let most = one.len().min(other.len());
    for place in 0..most {
        if one[place] != other[place] {
            return place;
        }
    }
    most
}

/// The number of the line that stands behind these bytes.
fn line_behind(text: &[u8]) -> u32
    requires { length text.now ≤ 16777216 }
    ensures { result ≡ definition.line_behind text.now }
{
    let mut line = 1;
    for byte in text {
        if *byte == b'\n' {
            line += 1;
        }
    }
    line
}

impl<'l> Comparing<'l> {
    /// Nothing of the log was compared.
    pub(crate) fn begin(log: &'l [u8]) -> Comparing<'l>
        requires { length log.now ≤ 16777216 }
        ensures { result ≡ record { log = log.now; place = 0 } }
    {
        Comparing { log, place: 0 }
    }

    /// Compares the next piece of the text. Where the log has another there, or ends within it, the first line that differs is
    /// answered, whatever comes behind the piece.
    pub(crate) fn take(&mut self, piece: &[u8]) -> Option<u32>
        ensures passes { IfNone result (definition.PassesPiece self.old self.new piece.now) }
        ensures fails { IfSome result (λ line. (later : List ℕ) → definition.Fails self.old (piece.now ++ later) line) }
    {
        let same = shared(piece, &self.log[self.place..]);
        if same == piece.len() {
            self.place += same;
            return None;
        }
        Some(line_behind(&self.log[..self.place + same]))
    }

    /// The answer where no piece is left.
    pub(crate) fn end(&self) -> AuditEnd
        ensures { Answers self.now.log (take self.now.place self.now.log) result }
    {
        if self.place == self.log.len() {
            return AuditEnd::Same;
        }
        AuditEnd::Differs {
            line: line_behind(&self.log[..self.place]),
        }
    }
}
