//! Header values as text, and text without blanks or quotes at its ends.
ghost use Rattle.std.{specs.Prelude.{◌≡◌, ◌==◌, true, false, MatchOption}, specs.List.after_last};
ghost use Rattle.std.specs.Option.{option_copied};
ghost use Rattle.headers_syntax.{specs.Text.{is_text, trim, without_quotes}, specs.Shapes.text_line};

use http_header::HeaderValue;
use memchr::memrchr;

const BLANKS: [char; 2] = ['\t', ' '];

const QUOTES: [char; 1] = ['"'];

/// Returns the header value as text: visible ASCII, spaces and tabs (RFC 9110, section 5.5). `None`
/// if it has any other byte.
pub fn read_text(value: &HeaderValue) -> Option<&str>
    ensures value { option_copied result ≡ text_line value.now.bytes }
    ensures cases { MatchOption result (is_text value.now.bytes ≡ false)
        (λ text. (is_text value.now.bytes ≡ true) × (text.now ≡ value.now.bytes)) }
{
    match value.to_str() {
        Ok(text) => Some(text),
        Err(_) => None,
    }
}

/// Returns the bytes after the last occurrence of a byte, or the whole text if it has none.
pub fn after_last(text: &[u8], byte: u8) -> &[u8]
    ensures { result.now ≡ after_last (λ b. b == byte) text.now }
{
    match memrchr(byte, text) {
        Some(place) => &text[place + 1..],
        None => text,
    }
}

/// Removes leading and trailing spaces and tabs from a text (RFC 9110, section 5.6.3).
pub fn trim_text(text: &str) -> &str
    ensures { result.now ≡ trim text.now }
{
    text.trim_start_matches(BLANKS).trim_end_matches(BLANKS)
}

/// Removes all leading and trailing quotes from a text, paired or not.
pub fn unquoted(text: &str) -> &str
    ensures { result.now ≡ without_quotes text.now }
{
    text.trim_start_matches(QUOTES).trim_end_matches(QUOTES)
}
