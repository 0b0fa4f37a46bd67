//! Stored responses.
ghost use Rattle.std.specs.Prelude.{◌+◌, ◌<◌, ◌^◌, ◌≡◌, ◌≤◌, IfOk, OnErr};
ghost use Rattle.cache_policy.specs.Requests.{request_of};
ghost use Rattle.cache_rules.specs.Stored.{made_at, request_of_stored, times_of};

use bytes::Bytes;
use cache_policy::{RequestHead, StoredHeads, Times, date};
use headers::HeaderMap;
use http::{Method, StatusCode};
use http_header::DATE;
use rfc_values::Timestamp;
use std::alloc::AllocError;

/// A response that a cache has stored, with the request that it answered (RFC 9111, section 2). Times
/// are seconds since 1970, by the cache's own clock.
#[derive(Debug, Drop)]
pub struct StoredResponse {
    /// The method of the request.
    pub method: Method,
    /// The fields of the request.
    pub request: HeaderMap,
    /// The status of the response.
    pub status: StatusCode,
    /// The fields of the response, as they are stored.
    pub response: HeaderMap,
    /// The whole content, whose clones share the bytes. Rules depend only on its length.
    pub content: Bytes,
    /// When the request was made that the response answered, or that validated it last.
    pub requested: u64,
    /// When the response came, or the one that validated it last.
    pub received: u64,
    /// Which stored response it is, once a store has given it a number. No rule depends on it.
    pub number: u64,
}

impl StoredResponse {
    /// Returns the request that the response answered.
    pub fn head(&self) -> RequestHead<'_>
        ensures { request_of result ≡ request_of_stored self.now }
    {
        RequestHead {
            method: &self.method,
            fields: &self.request,
        }
    }

    /// Returns the request that the response answered, with the fields of the response.
    pub fn heads(&self) -> StoredHeads<'_>
        ensures request { request_of result.request ≡ request_of_stored self.now }
        ensures response { result.response.now ≡ self.now.response }
    {
        StoredHeads {
            request: self.head(),
            response: &self.response,
        }
    }

    /// Returns the times of the response, with this present (RFC 9111, section 4.2.3).
    pub fn times(&self, now: u64) -> Times
        ensures { result ≡ times_of self.now now }
    {
        Times {
            request: self.requested,
            response: self.received,
            now,
        }
    }

    /// When it was made: its Date, or when it came if it has none that is valid (RFC 9110, section
    /// 6.6.1).
    pub(crate) fn made_at(&self) -> Timestamp
        ensures { result ≡ made_at self.now }
    {
        match date(&self.response, DATE, self.received) {
            Some(made) => made,
            None => Timestamp::from_unix_seconds(self.received),
        }
    }
}

/// Returns the number after so many from the first: no stored response has had it. Fails if it would be 2^64 or more.
pub fn number_after(first: u64, count: usize) -> Result<u64, AllocError>
    ensures ok { IfOk result (λ next. (next ≡ first + count) × (first + count < 2 ^ 64)) }
    ensures err { OnErr result (2 ^ 64 ≤ first + count) }
{
    first.checked_add(count as u64).ok_or(AllocError)
}
