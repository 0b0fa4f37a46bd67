//! The header `referer`.
ghost use Rattle.std.specs.Prelude.{Some, codes};

use crate::text_header::{TextField, TextHeader};
use headers_core::NamedField;
use http_header::{HeaderName, REFERER};
use std::fmt;

/// The header `Referer`: the resource from which the request's target was obtained (RFC 9110,
/// section 10.1.3). The only field line is stored. `decode` rejects a line that isn't text, and no
/// or several lines, and may run out of memory. Headers are compared by their bytes.
pub type Referer = TextHeader<RefererField>;

/// The field name of `Referer`.
#[derive(Debug, PartialEq)]
pub struct RefererField;

impl NamedField for RefererField {
    ghost NAME = { codes "referer" };

    const NAME: HeaderName = REFERER;
}

impl TextField for RefererField {
    type Invalid = InvalidReferer;
}

/// The error of a text with a control character other than tab, which no header value may have.
#[derive(Clone, Copy, Debug, Default, PartialEq, Eq)]
pub struct InvalidReferer;

impl fmt::Display for InvalidReferer {
    ghost output = { λ _. Some (codes "InvalidReferer") };

    ghost styled_output = { λ _ _. Some (codes "InvalidReferer") };

    fn fmt<W: fmt::Write>(&self, f: &mut fmt::Formatter<W>) -> fmt::Result {
        f.write_str("InvalidReferer")
    }
}

impl std::error::Error for InvalidReferer {}
