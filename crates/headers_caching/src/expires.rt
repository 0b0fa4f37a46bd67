//! The header `expires`.

use headers_core::{DateHeader, NamedField};
use http_header::{EXPIRES, HeaderName};

/// The header `Expires`: when a response becomes stale, a date from 1970 to 9999 (RFC 9111, section
/// 5.3). The only field line is decoded, in one of the three date formats. `decode` rejects any
/// other value, such as `0`, and no or several lines, and never allocates.
pub type Expires = DateHeader<ExpiresField>;

/// The field name of `Expires`.
#[derive(Clone, Copy, Debug, PartialEq, Eq, PartialOrd, Ord, Hash)]
pub struct ExpiresField;

impl NamedField for ExpiresField {
    ghost use Rattle.std.specs.Prelude.{codes};

    ghost NAME = { codes "expires" };

    const NAME: HeaderName = EXPIRES;
}
