//! The header `allow`.

use headers_core::NamedField;
use headers_names::{ListField, ListHeader};
use http::Method;
use http_header::{ALLOW, HeaderName};

/// The header `Allow`: the methods that a resource supports (RFC 9110, section 10.2.1).
///
/// All field lines are joined by a comma and a space, and none are rejected: `decode` fails only if
/// an allocation fails. `iter` yields the items that are methods. Headers are compared by the
/// joined bytes.
pub type Allow = ListHeader<AllowField>;

/// The field name of `Allow`.
#[derive(Debug, PartialEq)]
pub struct AllowField;

impl NamedField for AllowField {
    ghost use Rattle.std.specs.Prelude.{codes};

    ghost NAME = { codes "allow" };

    const NAME: HeaderName = ALLOW;
}

impl ListField for AllowField {
    type Item = Method;
}
