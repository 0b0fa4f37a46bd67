//! A text cut at a byte.
ghost use Rattle.std.specs.Prelude.{◌≡◌, option_map};
ghost use Rattle.rfc_fields.specs.Cuts.{cut};

use memchr::memchr;

/// Cuts a text at the first place of a byte: what is before it, and what follows it. `None` if the
/// text doesn't have the byte.
pub fn cut(at: u8, text: &[u8]) -> Option<(&[u8], &[u8])>
    ensures { option_map (λ sides. (sides.0.now, sides.1.now)) result ≡ cut at text.now }
{
    match memchr(at, text) {
        Some(place) => Some((&text[..place], &text[place + 1..])),
        None => None,
    }
}
