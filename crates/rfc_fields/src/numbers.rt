//! Numbers: `1*DIGIT`.
ghost use Rattle.std.specs.Prelude.{◌≡◌, ◌≤◌, ◌<◌, ◌^◌, ◌-◌, ◌+◌, ◌*◌, Some, None, IfSome, min, unwrap_or};
ghost use Rattle.std.{specs.Prelude.if◌then◌else◌, specs.Char.is_ascii_digit};
ghost use Rattle.rfc_fields.{specs.Numbers.{number_within, with_digit}, specs.Values.{octets_of, value_parts}};

use crate::values::Value;

/// The number of seconds that replaces a greater one (RFC 9111, section 1.2.2).
const GREATEST_SECONDS: u64 = 2_147_483_648;

// The number with one more digit.
fn with_digit(number: Option<u64>, digit: u8, greatest: u64) -> Option<u64>
    ensures value { result ≡ with_digit greatest number digit }
    ensures within { IfSome result (λ more. more ≤ greatest) }
{
    if !digit.is_ascii_digit() {
        return None;
    }
    let tens = number.unwrap_or(0).saturating_mul(10);
    Some(tens.saturating_add(u64::from(digit - b'0')).min(greatest))
}

/// Parses the octets of a value as a number; one above the greatest is replaced by it.
pub(crate) fn number_within(value: &Value<'_>, greatest: u64) -> Option<u64>
    ensures value { result ≡ number_within greatest (octets_of (value_parts value.now)) }
    ensures within { IfSome result (λ number. number ≤ greatest) }
{
    let mut octets = value.octets();
    let mut number = None;
    while let Some(octet) = octets.next() {
        match with_digit(number, octet, greatest) {
            Some(more) => number = Some(more),
            None => return None,
        }
    }
    number
}

/// Parses a text of digits as a number; one above 2^64 - 1 is replaced by it. `None` if the text is
/// empty or has another character, such as a sign.
pub fn number(text: &[u8]) -> Option<u64>
    ensures { result ≡ number_within (2 ^ 64 - 1) text.now }
{
    number_within(&Value::Token(text), u64::MAX)
}

impl<'a> Value<'a> {
    /// Returns the number that the value means, as a token or a quoted-string. A number above 2^64
    /// - 1 is replaced by it. `None` if the value is no number.
    pub fn number(&self) -> Option<u64>
        ensures { result ≡ number_within (2 ^ 64 - 1) (octets_of (value_parts self.now)) }
    {
        number_within(self, u64::MAX)
    }

    /// Returns the delta-seconds that the value means, as a token or a quoted-string (RFC 9111,
    /// section 1.2.2). A number above 2^31 is replaced by it. `None` if the value is no number.
    pub fn delta_seconds(&self) -> Option<u32>
        ensures { result ≡ number_within (2 ^ 31) (octets_of (value_parts self.now)) }
    {
        match number_within(self, GREATEST_SECONDS) {
            Some(seconds) => Some(seconds as u32),
            None => None,
        }
    }
}

/// Parses a text of digits as delta-seconds, as in Age (RFC 9111, sections 1.2.2 and 5.1). A number
/// above 2^31 is replaced by it. `None` if the text is no number.
pub fn delta_seconds(text: &[u8]) -> Option<u32>
    ensures { result ≡ number_within (2 ^ 31) text.now }
{
    Value::Token(text).delta_seconds()
}
