//! The header `location`.

use headers_core::{NamedField, ValueHeader};
use http_header::{HeaderName, LOCATION};

/// The header `Location`: the URI of a created resource, or of a redirection (RFC 9110, section
/// 10.2.2). The first field line is stored, whatever it is. `decode` rejects only a field without a
/// line, and may run out of memory. Headers are compared by their bytes.
pub type Location = ValueHeader<LocationField>;

/// The field name of `Location`.
#[derive(Debug, PartialEq)]
pub struct LocationField;

impl NamedField for LocationField {
    ghost use Rattle.std.specs.Prelude.{codes};

    ghost NAME = { codes "location" };

    const NAME: HeaderName = LOCATION;
}
