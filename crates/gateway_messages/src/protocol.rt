//! Versions of HTTP.

/// The version of HTTP in which a message was received (RFC 9110, section 2.5).
#[derive(Clone, Copy, Debug, PartialEq, Eq)]
pub enum Protocol {
    /// The version HTTP/1.0.
    Http10,
    /// The version HTTP/1.1, or a later one.
    Http11,
}
