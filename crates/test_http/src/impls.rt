//! What the impls of equality, order, hash and copies promise to a caller.
ghost use Rattle.std.{specs.Prelude.{◌≡◌, ◌↔◌, IsTrue, IfOk, fold}, specs.Cmp.Lexicographic.slice_cmp};
ghost use Rattle.std.specs.Hash as fed;
ghost use Rattle.std.specs.Hash.DefaultHasher as sip;
ghost use Rattle.std.specs.Ordering.{nat_cmp};
ghost use Rattle.headers.specs.Host.{host_bytes};
ghost use Rattle.http_header.specs.Token.{lowercase};

use headers::{
    AccessControlMaxAge, Age, CacheControl, ContentLength, ContentRange, ContentType, Date, Host,
    Location, Mime, ReferrerPolicy, RetryAfter, Server, StrictTransportSecurity,
};
use std::alloc::AllocError;
use std::cmp::Ordering;
use std::hash::{DefaultHasher, Hash, Hasher};

/// Equality, order and hash of a number or a date depend on its seconds.
pub fn same_age(age: &Age, other: &Age) -> bool
    ensures { IsTrue result ↔ (age.now ≡ other.now) }
{
    age == other
}

/// Order of a value of the type.
pub fn order_of_ages(age: &Age, other: &Age) -> Ordering
    ensures { result ≡ nat_cmp age.now other.now }
{
    age.cmp(other)
}

/// Equality of a value of the type.
pub fn same_date(date: &Date, other: &Date) -> bool
    ensures { IsTrue result ↔ (date.now ≡ other.now) }
{
    date == other
}

/// Order of a value of the type.
pub fn order_of_dates(date: &Date, other: &Date) -> Ordering
    ensures { result ≡ nat_cmp date.now other.now }
{
    date.cmp(other)
}

/// The hash of a value of the type.
pub fn hash_of_date(date: &Date) -> u64
    ensures { result ≡ sip.finish (fold sip.write sip.initial (fed.u64 date.now)) }
{
    let mut state = DefaultHasher::new();
    date.hash(&mut state);
    state.finish()
}

/// Equality of a location compares its bytes alone.
pub fn same_location(one: &Location, other: &Location) -> bool
    ensures { IsTrue result ↔ (one.now.bytes ≡ other.now.bytes) }
{
    one == other
}

/// Equality, order and hash of a text depend on its bytes alone.
pub fn same_server(one: &Server, other: &Server) -> bool
    ensures { IsTrue result ↔ (one.now.bytes ≡ other.now.bytes) }
{
    one == other
}

/// Order of a value of the type.
pub fn order_of_servers(one: &Server, other: &Server) -> Ordering
    ensures { result ≡ slice_cmp nat_cmp one.now.bytes other.now.bytes }
{
    one.cmp(other)
}

/// The hash of a value of the type.
pub fn hash_of_server(server: &Server) -> u64
    ensures { result ≡ sip.finish (fold sip.write sip.initial (fed.slice fed.u8 server.now.bytes)) }
{
    let mut state = DefaultHasher::new();
    server.hash(&mut state);
    state.finish()
}

/// Media types are equal exactly if their canonical texts are.
pub fn same_mime(one: &Mime, other: &Mime) -> bool
    ensures { IsTrue result ↔ (one.now ≡ other.now) }
{
    one == other
}

/// Equality of a value of the type.
pub fn same_content_type(one: &ContentType, other: &ContentType) -> bool
    ensures { IsTrue result ↔ (one.now ≡ other.now) }
{
    one == other
}

/// A copy of a value of the type.
pub fn copy_of_directives(directives: &CacheControl) -> Result<CacheControl, AllocError>
    ensures { IfOk result (λ copy. copy ≡ directives.now) }
{
    directives.clone()
}

/// A copy of a value of the type.
pub fn copy_of_max_age(max_age: &AccessControlMaxAge) -> Result<AccessControlMaxAge, AllocError>
    ensures { IfOk result (λ copy. copy ≡ max_age.now) }
{
    max_age.clone()
}

/// Equality of a value of the type.
pub fn same_retry(retry_after: &RetryAfter, other: &RetryAfter) -> bool
    ensures { IsTrue result ↔ (retry_after.now ≡ other.now) }
{
    retry_after == other
}

/// A copy of a value of the type.
pub fn copy_of_retry(retry_after: &RetryAfter) -> Result<RetryAfter, AllocError>
    ensures { IfOk result (λ copy. copy ≡ retry_after.now) }
{
    retry_after.clone()
}

/// A copy of a value of the type.
pub fn copy_of_security(
    security: &StrictTransportSecurity,
) -> Result<StrictTransportSecurity, AllocError>
    ensures { IfOk result (λ copy. copy ≡ security.now) }
{
    security.clone()
}

/// Equality of a value of the type.
pub fn same_security(security: &StrictTransportSecurity, other: &StrictTransportSecurity) -> bool
    ensures { IsTrue result ↔ (security.now ≡ other.now) }
{
    security == other
}

/// A copy of a value of the type.
pub fn copy_of_policy(policy: &ReferrerPolicy) -> Result<ReferrerPolicy, AllocError>
    ensures { IfOk result (λ copy. copy ≡ policy.now) }
{
    policy.clone()
}

/// Equality of a value of the type.
pub fn same_policy(policy: &ReferrerPolicy, other: &ReferrerPolicy) -> bool
    ensures { IsTrue result ↔ (policy.now ≡ other.now) }
{
    policy == other
}

/// A copy of a value of the type.
pub fn copy_of_content_range(range: &ContentRange) -> Result<ContentRange, AllocError>
    ensures { IfOk result (λ copy. copy ≡ range.now) }
{
    range.clone()
}

/// Equality of a value of the type.
pub fn same_content_range(range: &ContentRange, other: &ContentRange) -> bool
    ensures { IsTrue result ↔ (range.now ≡ other.now) }
{
    range == other
}

/// Equality of a value of the type.
pub fn same_length(length: &ContentLength, other: &ContentLength) -> bool
    ensures { IsTrue result ↔ (length.now ≡ other.now) }
{
    length == other
}

/// Equality and hash of a host ignore the case of ASCII letters.
pub fn same_host(one: &Host, other: &Host) -> bool
    ensures { IsTrue result ↔ (lowercase (host_bytes one.now) ≡ lowercase (host_bytes other.now)) }
{
    one == other
}

/// The hash of a value of the type.
pub fn hash_of_host(host: &Host) -> u64
    ensures { result ≡ sip.finish (fold sip.write sip.initial (fed.slice fed.u8 (lowercase (host_bytes host.now)))) }
{
    let mut state = DefaultHasher::new();
    host.hash(&mut state);
    state.finish()
}
