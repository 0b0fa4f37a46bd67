//! The header `date`.

use headers_core::{DateHeader, NamedField};
use http_header::{DATE, HeaderName};

/// The header `Date`: when the message was originated, a date from 1970 to 9999 (RFC 9110, section
/// 6.6.1). The only field line is decoded, in one of the three date formats. `decode` rejects any
/// other value, and no or several lines, and never allocates.
pub type Date = DateHeader<DateField>;

/// The field name of `Date`.
#[derive(Clone, Copy, Debug, PartialEq, Eq, PartialOrd, Ord, Hash)]
pub struct DateField;

impl NamedField for DateField {
    ghost use Rattle.std.specs.Prelude.{codes};

    ghost NAME = { codes "date" };

    const NAME: HeaderName = DATE;
}
