//! Numbers that decimal digits write.
ghost use Rattle.std.specs.Prelude.{◌≡◌, ◌≤◌, IfSome};
ghost use Rattle.dp_text.specs.Digits as spec;

/// The number with one digit more, where it is at most `most`.
fn with_digit(most: u64, number: u64, digit: u8) -> Option<u64>
    ensures { result ≡ spec.digit_after most number digit }
{
    if !digit.is_ascii_digit() {
        return None;
    }
    let next = number.checked_mul(10)?.checked_add((digit - b'0') as u64)?;
    if next <= most { Some(next) } else { None }
}

/// The number that decimal digits write, where it is at most `most`; 0 where there is none.
#[tactic(auto, using(crate::proofs::DigitLemmas::value_lost, crate::proofs::DigitLemmas::value_found))]
pub fn value_upto(most: u64, digits: &[u8]) -> Option<u64>
    ensures value { result ≡ spec.value_upto most digits.now }
    ensures within { IfSome result (λ n. n ≤ most) }
{
    let mut number = 0;
    'digits: for digit in digits {
        number = with_digit(most, number, *digit)?;
    }
    Some(number)
}
