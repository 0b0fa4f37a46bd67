//! The header `user-agent`.
ghost use Rattle.std.specs.Prelude.{Some, codes};

use crate::text_header::{TextField, TextHeader};
use headers_core::NamedField;
use http_header::{HeaderName, USER_AGENT};
use std::fmt;

/// The header `User-Agent`: the software that sends the request (RFC 9110, section 10.1.5). The
/// only field line is stored. `decode` rejects a line that isn't text, and no or several lines, and
/// may run out of memory. Headers are compared, ordered and hashed by their bytes.
pub type UserAgent = TextHeader<UserAgentField>;

/// The field name of `UserAgent`.
#[derive(Debug, PartialEq, Eq, PartialOrd, Ord, Hash)]
pub struct UserAgentField;

impl NamedField for UserAgentField {
    ghost NAME = { codes "user-agent" };

    const NAME: HeaderName = USER_AGENT;
}

impl TextField for UserAgentField {
    type Invalid = InvalidUserAgent;
}

/// The error of a text with a control character other than tab, which no header value may have.
#[derive(Clone, Copy, Debug, Default, PartialEq, Eq)]
pub struct InvalidUserAgent;

impl fmt::Display for InvalidUserAgent {
    ghost output = { λ _. Some (codes "InvalidUserAgent") };

    ghost styled_output = { λ _ _. Some (codes "InvalidUserAgent") };

    fn fmt<W: fmt::Write>(&self, f: &mut fmt::Formatter<W>) -> fmt::Result {
        f.write_str("InvalidUserAgent")
    }
}

impl std::error::Error for InvalidUserAgent {}
