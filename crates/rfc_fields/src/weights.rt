//! Weights (RFC 9110, section 12.4.2).
ghost use Rattle.std.specs.Prelude.{◌≡◌, ◌≤◌, IfSome};
ghost use Rattle.rfc_fields.specs.Weights.{fraction, one, thousandths, weight};

use crate::numbers::number_within;
use crate::values::Value;

// At most three digits after a point, as thousandths.
fn thousandths(digits: &[u8]) -> Option<u16>
    ensures value { result ≡ thousandths digits.now }
    ensures within { IfSome result (λ n. n ≤ 999) }
{
    let number = Value::Token(digits);
    match digits.len() {
        0 => Some(0),
        1 => match number_within(&number, 9) {
            Some(tenths) => Some(tenths as u16 * 100),
            None => None,
        },
        2 => match number_within(&number, 99) {
            Some(hundredths) => Some(hundredths as u16 * 10),
            None => None,
        },
        3 => match number_within(&number, 999) {
            Some(thousandths) => Some(thousandths as u16),
            None => None,
        },
        _ => None,
    }
}

// What follows the first digit of a weight, as thousandths.
fn fraction(text: &[u8]) -> Option<u16>
    ensures value { result ≡ fraction text.now }
    ensures within { IfSome result (λ n. n ≤ 999) }
{
    if text.is_empty() {
        return Some(0);
    }
    if text[0] != b'.' {
        return None;
    }
    thousandths(&text[1..])
}

// A thousand, if the fraction is 0.
fn one(fraction: Option<u16>) -> Option<u16>
    ensures value { result ≡ one fraction }
    ensures within { IfSome result (λ n. n ≤ 1000) }
{
    match fraction {
        Some(0) => Some(1000),
        _ => None,
    }
}

/// Parses a text as a weight, in thousandths, from 0 to 1000 (RFC 9110, section 12.4.2). `None` for
/// any other text.
///
/// A weight is the value of a parameter `q`, and no quoted-string: 0 or 1, then perhaps a point and
/// at most three digits, which are all 0 after a 1.
pub fn weight(text: &[u8]) -> Option<u16>
    ensures value { result ≡ weight text.now }
    ensures within { IfSome result (λ n. n ≤ 1000) }
{
    if text.is_empty() {
        return None;
    }
    match text[0] {
        b'0' => fraction(&text[1..]),
        b'1' => one(fraction(&text[1..])),
        _ => None,
    }
}
