//! Whether a text is listed.
ghost use Rattle.std.specs.{Prelude.◌≡◌, Prelude.bytes_eq, List.list_any};

use headers::HeaderValue;

// Whether the list has this field line, byte for byte.
pub(crate) fn is_listed(listed: &[HeaderValue], line: &HeaderValue) -> bool
    ensures { result ≡ list_any (λ value. bytes_eq line.now.bytes value.bytes) listed.now }
{
    listed
        .iter()
        .any(|value| line.as_bytes() == value.as_bytes())
}
