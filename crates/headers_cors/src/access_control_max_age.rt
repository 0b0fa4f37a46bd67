//! The header `access-control-max-age`.

use headers_core::{NamedField, SecondsHeader};
use http_header::{ACCESS_CONTROL_MAX_AGE, HeaderName};

/// The header `Access-Control-Max-Age`: how long a preflight response may be cached, in seconds
/// below 2^64 (Fetch standard, section 3.3.3). The only field line is decoded. `decode` rejects any
/// other value, and no or several lines, and never allocates.
pub type AccessControlMaxAge = SecondsHeader<AccessControlMaxAgeField>;

/// The field name of `AccessControlMaxAge`.
#[derive(Clone, Debug, Drop, PartialEq, Eq, PartialOrd, Ord, Hash)]
pub struct AccessControlMaxAgeField;

impl NamedField for AccessControlMaxAgeField {
    ghost use Rattle.std.specs.Prelude.{codes};

    ghost NAME = { codes "access-control-max-age" };

    const NAME: HeaderName = ACCESS_CONTROL_MAX_AGE;
}
