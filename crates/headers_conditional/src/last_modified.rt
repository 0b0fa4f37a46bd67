//! The header `last-modified`.

use headers_core::{DateHeader, NamedField};
use http_header::{HeaderName, LAST_MODIFIED};

/// The header `Last-Modified`: when the representation was last modified, a date from 1970 to 9999
/// (RFC 9110, section 8.8.2). The only field line is decoded, in one of the three date formats.
/// `decode` rejects any other value, and no or several lines, and never allocates.
pub type LastModified = DateHeader<LastModifiedField>;

/// The field name of `LastModified`.
#[derive(Clone, Copy, Debug, PartialEq, Eq, PartialOrd, Ord, Hash)]
pub struct LastModifiedField;

impl NamedField for LastModifiedField {
    ghost use Rattle.std.specs.Prelude.{codes};

    ghost NAME = { codes "last-modified" };

    const NAME: HeaderName = LAST_MODIFIED;
}
