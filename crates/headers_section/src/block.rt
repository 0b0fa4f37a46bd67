//! The lines that are printed for a name.
ghost use Rattle.std.specs.Prelude.{◌≡◌, ◌<◌, ◌++◌, [], Some, length, option_map, IfOk, MatchBool};
ghost use Rattle.http_header.specs.HeaderMap.{get_all};
ghost use Rattle.headers.specs.Lines.{lines_of};
ghost use Rattle.headers_section.specs.Printed.{block_printed};
ghost use Rattle.headers_section.specs.KnownHeaders.{content_headers, context_headers, security_headers};
ghost use Rattle.headers_section.specs.CanonicalText.{IsTypedBlock, IsBlock, IsBlockAmong};

use headers::{
    AcceptRanges, AccessControlAllowCredentials, AccessControlAllowHeaders,
    AccessControlAllowMethods, AccessControlAllowOrigin, AccessControlExposeHeaders,
    AccessControlMaxAge, AccessControlRequestHeaders, AccessControlRequestMethod, Age, Allow,
    CacheControl, Connection, ContentDisposition, ContentEncoding, ContentLength, ContentLocation,
    ContentRange, ContentType, Cookie, Date, ETag, Expect, Expires, Header, HeaderMap, HeaderName,
    HeaderValue, Host, IfMatch, IfModifiedSince, IfNoneMatch, IfRange, IfUnmodifiedSince,
    LastModified, Location, Origin, Pragma, Range, Referer, ReferrerPolicy, Refused, RetryAfter,
    SecWebsocketAccept, SecWebsocketKey, SecWebsocketVersion, Server, SetCookie,
    StrictTransportSecurity, Te, TransferEncoding, Upgrade, UserAgent, Vary, canonical,
};
use std::alloc::{AllocError, Global};

/// What is printed for a name that the map has.
#[derive(Drop)]
pub enum Printed {
    /// The encoding of the value that its field lines decode to.
    Encoded(Vec<HeaderValue>),
    /// The header of the name rejects its field lines.
    Rejected,
    /// Its field lines as they came: no known header has the name.
    Kept,
}

// The block of a known header of which the map has a line, by `canonical`.
fn typed_block<H: Header>(alloc: Global, map: &HeaderMap) -> Result<Printed, AllocError>
    ensures { 0 < length (get_all map.now H.field_name) → IfOk result (λ block. IsTypedBlock H.reads H.writes
        (lines_of (get_all map.now H.field_name)) (block_printed (lines_of (get_all map.now H.field_name)) block)) }
{
    match canonical::<H>(alloc, map) {
        Ok(Some(encoded)) => Ok(Printed::Encoded(encoded.lines)),
        Ok(None) => Ok(Printed::Encoded(Vec::new(alloc))),
        Err(Refused::Invalid(_)) => Ok(Printed::Rejected),
        Err(Refused::Memory(error)) => Err(error),
    }
}

// The values under the name, as they came.
fn kept_lines(
    alloc: Global,
    map: &HeaderMap,
    name: &HeaderName,
) -> Result<Vec<HeaderValue>, AllocError>
    ensures { IfOk result (λ lines. lines_of lines.items ≡ lines_of (get_all map.now name.now)) }
{
    let mut lines = Vec::new(alloc);
    for value in map.get_all(name) {
        lines.push(value.clone()?)?;
    }
    Ok(lines)
}

// The block of a name by the headers of other origins, of security and of websockets, else `Kept`.
fn security_block(alloc: Global, map: &HeaderMap, name: &HeaderName) -> Result<Printed, AllocError>
    ensures { 0 < length (get_all map.now name.now) → IfOk result (λ block.
        IsBlockAmong security_headers name.now
        (lines_of (get_all map.now name.now)) (block_printed (lines_of (get_all map.now name.now)) block)) }
{
    match name.as_str() {
        "access-control-allow-credentials" => typed_block::<AccessControlAllowCredentials>(
            alloc, map,
        ),
        "access-control-allow-headers" => typed_block::<AccessControlAllowHeaders>(alloc, map),
        "access-control-allow-methods" => typed_block::<AccessControlAllowMethods>(alloc, map),
        "access-control-allow-origin" => typed_block::<AccessControlAllowOrigin>(alloc, map),
        "access-control-expose-headers" => typed_block::<AccessControlExposeHeaders>(alloc, map),
        "access-control-max-age" => typed_block::<AccessControlMaxAge>(alloc, map),
        "access-control-request-headers" => typed_block::<AccessControlRequestHeaders>(alloc, map),
        "access-control-request-method" => typed_block::<AccessControlRequestMethod>(alloc, map),
        "strict-transport-security" => typed_block::<StrictTransportSecurity>(alloc, map),
        "referrer-policy" => typed_block::<ReferrerPolicy>(alloc, map),
        "sec-websocket-accept" => typed_block::<SecWebsocketAccept>(alloc, map),
        "sec-websocket-key" => typed_block::<SecWebsocketKey>(alloc, map),
        "sec-websocket-version" => typed_block::<SecWebsocketVersion>(alloc, map),
        _ => Ok(Printed::Kept),
    }
}

// The same by the headers of the context, of cookies and hosts, else by those above.
fn context_block(alloc: Global, map: &HeaderMap, name: &HeaderName) -> Result<Printed, AllocError>
    ensures { 0 < length (get_all map.now name.now) → IfOk result (λ block.
        IsBlockAmong (context_headers ++ security_headers) name.now
        (lines_of (get_all map.now name.now)) (block_printed (lines_of (get_all map.now name.now)) block)) }
{
    match name.as_str() {
        "allow" => typed_block::<Allow>(alloc, map),
        "date" => typed_block::<Date>(alloc, map),
        "location" => typed_block::<Location>(alloc, map),
        "referer" => typed_block::<Referer>(alloc, map),
        "retry-after" => typed_block::<RetryAfter>(alloc, map),
        "server" => typed_block::<Server>(alloc, map),
        "user-agent" => typed_block::<UserAgent>(alloc, map),
        "cookie" => typed_block::<Cookie>(alloc, map),
        "set-cookie" => typed_block::<SetCookie>(alloc, map),
        "host" => typed_block::<Host>(alloc, map),
        "origin" => typed_block::<Origin>(alloc, map),
        _ => security_block(alloc, map, name),
    }
}

// The same by the headers of the connection, of content and its ranges, else by those above.
fn content_block(alloc: Global, map: &HeaderMap, name: &HeaderName) -> Result<Printed, AllocError>
    ensures { 0 < length (get_all map.now name.now) → IfOk result (λ block.
        IsBlockAmong (content_headers ++ context_headers ++ security_headers) name.now
        (lines_of (get_all map.now name.now)) (block_printed (lines_of (get_all map.now name.now)) block)) }
{
    match name.as_str() {
        "connection" => typed_block::<Connection>(alloc, map),
        "expect" => typed_block::<Expect>(alloc, map),
        "te" => typed_block::<Te>(alloc, map),
        "transfer-encoding" => typed_block::<TransferEncoding>(alloc, map),
        "upgrade" => typed_block::<Upgrade>(alloc, map),
        "content-disposition" => typed_block::<ContentDisposition>(alloc, map),
        "content-encoding" => typed_block::<ContentEncoding>(alloc, map),
        "content-length" => typed_block::<ContentLength>(alloc, map),
        "content-location" => typed_block::<ContentLocation>(alloc, map),
        "content-type" => typed_block::<ContentType>(alloc, map),
        "accept-ranges" => typed_block::<AcceptRanges>(alloc, map),
        "content-range" => typed_block::<ContentRange>(alloc, map),
        "range" => typed_block::<Range>(alloc, map),
        _ => context_block(alloc, map, name),
    }
}

// The block of a name of which the map has a line. Fails only if an allocation fails.
//
// A match over all the names takes twice as long to prove as these four.
pub fn canonical_block(
    alloc: Global,
    map: &HeaderMap,
    name: &HeaderName,
) -> Result<Printed, AllocError>
    ensures { 0 < length (get_all map.now name.now) → IfOk result (λ block. IsBlock name.now
        (lines_of (get_all map.now name.now)) (block_printed (lines_of (get_all map.now name.now)) block)) }
{
    // Each known header has a standard name.
    if HeaderName::standard(name.as_bytes()).is_none() {
        return Ok(Printed::Kept);
    }
    match name.as_str() {
        "age" => typed_block::<Age>(alloc, map),
        "cache-control" => typed_block::<CacheControl>(alloc, map),
        "expires" => typed_block::<Expires>(alloc, map),
        "pragma" => typed_block::<Pragma>(alloc, map),
        "vary" => typed_block::<Vary>(alloc, map),
        "etag" => typed_block::<ETag>(alloc, map),
        "if-match" => typed_block::<IfMatch>(alloc, map),
        "if-modified-since" => typed_block::<IfModifiedSince>(alloc, map),
        "if-none-match" => typed_block::<IfNoneMatch>(alloc, map),
        "if-range" => typed_block::<IfRange>(alloc, map),
        "if-unmodified-since" => typed_block::<IfUnmodifiedSince>(alloc, map),
        "last-modified" => typed_block::<LastModified>(alloc, map),
        _ => content_block(alloc, map, name),
    }
}

fn has_no_line(map: &HeaderMap, name: &HeaderName) -> bool
    ensures { MatchBool result (get_all map.now name.now ≡ []) (0 < length (get_all map.now name.now)) }
{
    map.get_all(name).iter().next().is_none()
}

/// Returns the field lines to print for a name: none if the map has none, else those that
/// `canonical` returns for its header. `None` if the header rejects its lines. The values of a name
/// that is no known header are unchanged. Fails only if an allocation fails.
pub fn read_block(
    alloc: Global,
    map: &HeaderMap,
    name: &HeaderName,
) -> Result<Option<Vec<HeaderValue>>, AllocError>
    ensures block { 0 < length (get_all map.now name.now) → IfOk result (λ block. IsBlock name.now
        (lines_of (get_all map.now name.now)) (option_map (λ lines. lines_of lines.items) block)) }
    ensures none { get_all map.now name.now ≡ [] → IfOk result
        (λ block. option_map (λ lines. lines_of lines.items) block ≡ Some []) }
{
    if has_no_line(map, name) {
        return Ok(Some(Vec::new(alloc)));
    }
    match canonical_block(alloc, map, name)? {
        Printed::Encoded(lines) => Ok(Some(lines)),
        Printed::Rejected => Ok(None),
        Printed::Kept => Ok(Some(kept_lines(alloc, map, name)?)),
    }
}
