//! Requests.

use http::Method;
use http_header::HeaderMap;

/// The head of a request: its method and its fields.
#[derive(Clone, Copy)]
pub struct RequestHead<'a> {
    /// The method.
    pub method: &'a Method,
    /// The fields.
    pub fields: &'a HeaderMap,
}
