//! The header `access-control-allow-methods`.

use headers_core::NamedField;
use headers_names::{ListField, ListHeader};
use http::Method;
use http_header::{ACCESS_CONTROL_ALLOW_METHODS, HeaderName};

/// The header `Access-Control-Allow-Methods`: the methods that a cross-origin request may use (W3C
/// CORS, section 5.5).
///
/// All field lines are joined by a comma and a space, and none are rejected: `decode` fails only if
/// an allocation fails. `iter` yields the items that are methods. Headers are compared by the
/// joined bytes.
pub type AccessControlAllowMethods = ListHeader<AccessControlAllowMethodsField>;

/// The field name of `AccessControlAllowMethods`.
#[derive(Debug, PartialEq)]
pub struct AccessControlAllowMethodsField;

impl NamedField for AccessControlAllowMethodsField {
    ghost use Rattle.std.specs.Prelude.{codes};

    ghost NAME = { codes "access-control-allow-methods" };

    const NAME: HeaderName = ACCESS_CONTROL_ALLOW_METHODS;
}

impl ListField for AccessControlAllowMethodsField {
    type Item = Method;
}
