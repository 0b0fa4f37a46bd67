//! The header `access-control-expose-headers`.

use headers_core::NamedField;
use headers_names::{ListField, ListHeader};
use http_header::{ACCESS_CONTROL_EXPOSE_HEADERS, HeaderName};

/// The header `Access-Control-Expose-Headers`: the response fields that a script may read (W3C
/// CORS, section 5.3).
///
/// All field lines are joined by a comma and a space, and none are rejected: `decode` fails only if
/// an allocation fails. `iter` yields the items that are field names.
pub type AccessControlExposeHeaders = ListHeader<AccessControlExposeHeadersField>;

/// The field name of `AccessControlExposeHeaders`.
#[derive(Debug)]
pub struct AccessControlExposeHeadersField;

impl NamedField for AccessControlExposeHeadersField {
    ghost use Rattle.std.specs.Prelude.{codes};

    ghost NAME = { codes "access-control-expose-headers" };

    const NAME: HeaderName = ACCESS_CONTROL_EXPOSE_HEADERS;
}

impl ListField for AccessControlExposeHeadersField {
    type Item = HeaderName;
}
