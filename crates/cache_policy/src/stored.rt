//! Stored responses.

use headers::HeaderMap;
use rfc_fields::RequestHead;

/// A stored response, as far as it decides which requests it answers.
#[derive(Clone, Copy)]
pub struct StoredHeads<'a> {
    /// The head of the request that the response answered.
    pub request: RequestHead<'a>,
    /// The fields of the response.
    pub response: &'a HeaderMap,
}
