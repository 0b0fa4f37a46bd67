//! The items of an iterator over field lines.
ghost use Rattle.std.specs.Prelude.{◌≡◌};
ghost use Rattle.http_header.specs.FieldValue.{FieldValue};

use http_header::HeaderValue;

/// An item of an iterator over field lines: `HeaderValue` or `&HeaderValue`.
pub trait AsHeaderValue: Drop {
    // The header value of the item, as contracts see it.
    ghost shown: { Self → FieldValue };

    /// Returns the header value of the item.
    fn as_header_value(&self) -> &HeaderValue
        ensures { result.now ≡ shown self.now };
}

impl AsHeaderValue for &HeaderValue {
    ghost shown = { λ item. item.now };

    fn as_header_value(&self) -> &HeaderValue {
        *self
    }
}

impl AsHeaderValue for HeaderValue {
    ghost shown = { λ item. item };

    fn as_header_value(&self) -> &HeaderValue {
        self
    }
}
