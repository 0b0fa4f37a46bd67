//! Field lines, in the order in which they are sent.

use headers::{HeaderName, HeaderValue};

/// A field line: a field name and one field line value (RFC 9110, section 5.2).
#[derive(Debug, Drop)]
pub struct FieldLine {
    /// The field name, in lower case.
    pub name: HeaderName,
    /// The field line value.
    pub value: HeaderValue,
}
