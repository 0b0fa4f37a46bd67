//! The header `access-control-request-headers`.

use headers_core::NamedField;
use headers_names::{ListField, ListHeader};
use http_header::{ACCESS_CONTROL_REQUEST_HEADERS, HeaderName};

/// The header `Access-Control-Request-Headers`: the field names that the actual request will have
/// (W3C CORS, section 5.9).
///
/// All field lines are joined by a comma and a space, and none are rejected: `decode` fails only if
/// an allocation fails. `iter` yields the items that are field names.
pub type AccessControlRequestHeaders = ListHeader<AccessControlRequestHeadersField>;

/// The field name of `AccessControlRequestHeaders`.
#[derive(Debug)]
pub struct AccessControlRequestHeadersField;

impl NamedField for AccessControlRequestHeadersField {
    ghost use Rattle.std.specs.Prelude.{codes};

    ghost NAME = { codes "access-control-request-headers" };

    const NAME: HeaderName = ACCESS_CONTROL_REQUEST_HEADERS;
}

impl ListField for AccessControlRequestHeadersField {
    type Item = HeaderName;
}
