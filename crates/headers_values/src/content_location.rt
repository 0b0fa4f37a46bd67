//! The header `content-location`.

use headers_core::{NamedField, ValueHeader};
use http_header::{CONTENT_LOCATION, HeaderName};

/// The header `Content-Location`: where the content of the message can be found (RFC 9110, section
/// 8.7). The first field line is stored, whatever it is. `decode` rejects only a field without a
/// line, and may run out of memory. Headers are compared by their bytes.
pub type ContentLocation = ValueHeader<ContentLocationField>;

/// The field name of `ContentLocation`.
#[derive(Debug, PartialEq)]
pub struct ContentLocationField;

impl NamedField for ContentLocationField {
    ghost use Rattle.std.specs.Prelude.{codes};

    ghost NAME = { codes "content-location" };

    const NAME: HeaderName = CONTENT_LOCATION;
}
