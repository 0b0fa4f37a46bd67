//! Requests.

use crate::denied::Denied;
use gateway_messages::Protocol;
use headers::{HeaderMap, HeaderValue};
use http::Method;

/// The content of a request, by the framing of its message (RFC 9110, section 6.4).
#[derive(Clone, Copy, Debug, PartialEq, Eq)]
pub enum RequestContent {
    /// The request has no content.
    Absent,
    /// The content has this many bytes.
    Sized(u64),
    /// The length of the content isn't stated.
    Unsized,
}

/// A request for a resource, without its content.
#[derive(Clone, Copy)]
pub struct ResourceRequest<'a> {
    /// The version of HTTP. A later version than 1.1 counts as 1.1, with Host as `:authority`.
    pub protocol: Protocol,
    /// The method.
    pub method: &'a Method,
    /// The authority of its target, if that is in absolute-form (RFC 9112, section 3.2.2).
    pub authority: Option<&'a HeaderValue>,
    /// What is known of its content.
    pub content: RequestContent,
    /// The fields.
    pub fields: &'a HeaderMap,
    /// Why the server denies the request, if it does. What credentials it takes, and how many requests
    /// of a client, are the server's own.
    pub denied: Option<&'a Denied>,
}
