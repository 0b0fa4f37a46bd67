//! The header `age`.

use headers_core::{NamedField, SecondsHeader};
use http_header::{AGE, HeaderName};

/// The header `Age`: the time since a response was generated or validated at its origin, in seconds
/// below 2^64 (RFC 9111, section 5.1). The only field line is decoded. `decode` rejects any other
/// value, and no or several lines, and never allocates.
pub type Age = SecondsHeader<AgeField>;

/// The field name of `Age`.
#[derive(Clone, Copy, Debug, PartialEq, Eq, PartialOrd, Ord, Hash)]
pub struct AgeField;

impl NamedField for AgeField {
    ghost use Rattle.std.specs.Prelude.{codes};

    ghost NAME = { codes "age" };

    const NAME: HeaderName = AGE;
}
