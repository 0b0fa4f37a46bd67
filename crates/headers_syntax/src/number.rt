//! The parser of numbers.
ghost use Rattle.std.specs.Prelude.{◌≡◌, ◌<◌, ◌≤◌, ◌^◌, ℕ, Some, None, decimal, length, if◌then◌else◌};
ghost use Rattle.std.specs.Str.{all_ascii_digits};
ghost use Rattle.headers_syntax.specs.Number.{after_plus, decimal_value, is_numeral, number};

use http_header::HeaderValue;

// How many digits can't pass 2^64.
const SHORT: usize = 19;

// What follows an optional plus.
fn after_plus(bytes: &[u8]) -> &[u8]
    ensures { result.now ≡ after_plus bytes.now }
{
    match bytes {
        [b'+', rest @ ..] => rest,
        _ => bytes,
    }
}

// The number that at most nineteen digits write, or `None` if some byte is no digit. No step is
// tested for overflow.
fn digits_value(digits: &[u8]) -> Option<u64>
    requires { length digits.now ≤ 19 }
    ensures { result ≡ (if all_ascii_digits digits.now then Some (decimal_value digits.now) else None) }
{
    let mut number: u64 = 0;
    for at in 0..digits.len() {
        let byte = digits[at];
        if byte < b'0' || byte > b'9' {
            return None;
        }
        number = number * 10 + u64::from(byte - b'0');
    }
    Some(number)
}

// The number of at most nineteen bytes, or `None` if they are no numeral.
fn short_number(digits: &[u8]) -> Option<u64>
    requires { length digits.now ≤ 19 }
    ensures { result ≡ (if is_numeral digits.now then Some (decimal_value digits.now) else None) }
{
    if digits.is_empty() {
        return None;
    }
    digits_value(digits)
}

/// Parses a field line as a number below 2^64: an optional plus sign and decimal digits. `None` for
/// any other value.
pub fn read_number(value: &HeaderValue) -> Option<u64>
    ensures { result ≡ number value.now.bytes }
{
    let digits = after_plus(value.as_bytes());
    if digits.len() <= SHORT {
        return short_number(digits);
    }
    match value.to_str() {
        Ok(text) => text.parse::<u64>().ok(),
        Err(_) => None,
    }
}

/// Parses a text as a number below 2^64: an optional plus sign and decimal digits. `None` for any
/// other text.
pub fn parse_number(text: &str) -> Option<u64>
    ensures { result ≡ number text.now }
{
    let digits = after_plus(text.as_bytes());
    if digits.len() <= SHORT {
        return short_number(digits);
    }
    text.parse::<u64>().ok()
}

/// Theorem: a number below 2^64 is encoded as a field line that parses as that number.
pub fn numbers_read_back()
    ensures { (n : ℕ) → n < 2 ^ 64 → number (decimal n) ≡ Some n }
{}
