//! The header `origin`.
ghost use Rattle.std.specs.Prelude.{◌≡◌, List, ℕ, IsTrue, IfOk, Some, MatchOption, codes, string_bytes};
ghost use Rattle.http_uri.specs.declared.uri.Uri.{Uri as Target};
ghost use Rattle.http_uri.specs.Port.{IsPortNumberOfSome};
ghost use Rattle.headers_hosts.specs.OneLine.{LineDecodesTo};
ghost use Rattle.headers_hosts.specs.Origin.{IsOriginLine, origin_text, origin_reads, origin_writes, origin_is_null};
ghost use Rattle.headers_hosts.specs.Origin.{origin_scheme, origin_host, origin_authority, tuple_text, parts_text};
ghost use Rattle.headers_hosts.specs.OriginParts.{IsUriOrigin, IsOriginText};
ghost use Rattle.headers_hosts.specs.declared.origin.Origin.{Origin as Seen};

use headers_core::{AsHeaderValue, Error, Header, Refused, just_one};
use http_header::{HeaderName, HeaderValue, HeaderValueError, ORIGIN};
use http_uri::{Authority, Parts, Scheme, Uri, UriError};
use std::alloc::{AllocError, Global};
use std::fmt;

/// The header `Origin`: the origin of a request (RFC 6454, section 7).
///
/// The only field line is decoded: `null`, or at most 65,534 bytes that `http_uri` parses as a URI
/// with a scheme and an authority, the path `/` or none, and no query. `decode` rejects any other
/// value, and no or several lines, and may run out of memory. The encoding is `null`, or the
/// scheme, `://` and the authority. Headers are compared and hashed without the case of ASCII
/// letters.
#[derive(Debug, PartialEq, Eq, Hash, Drop)]
pub struct Origin {
    kind: OriginOrNull,
}

#[derive(Debug, PartialEq, Eq, Hash, Drop)]
enum OriginOrNull {
    Tuple(Scheme, Authority),
    Null,
}

/// The error of a text that is no header value or no origin.
#[derive(Clone, Copy, Debug, PartialEq, Eq)]
pub struct InvalidOrigin;

impl fmt::Display for InvalidOrigin {
    ghost output = { λ _. Some (codes "InvalidOrigin") };

    ghost styled_output = { λ _ _. Some (codes "InvalidOrigin") };

    fn fmt<W: fmt::Write>(&self, f: &mut fmt::Formatter<W>) -> fmt::Result {
        f.write_str("InvalidOrigin")
    }
}

impl std::error::Error for InvalidOrigin {}

// The origin that a URI is. `None` if it is no origin.
fn origin_of(uri: Uri) -> Option<Origin>
    ensures { MatchOption result ((origin : Seen) → ¬ (IsUriOrigin uri origin)) (IsUriOrigin uri) }
{
    if uri.path() != "/" || uri.query().is_some() {
        return None;
    }
    let Parts {
        scheme,
        authority,
        path_and_query: _,
    } = uri.into_parts();
    match (scheme, authority) {
        (Some(scheme), Some(authority)) => Some(Origin {
            kind: OriginOrNull::Tuple(scheme, authority),
        }),
        _ => None,
    }
}

// The scheme, `://`, the host and, if there is a port, a colon and the port.
fn parts_string(
    alloc: Global,
    scheme: &str,
    host: &str,
    port: Option<u16>,
) -> Result<String, AllocError>
    ensures { IfOk result (λ text. string_bytes text ≡ parts_text scheme.now host.now port) }
{
    match port {
        Some(port) => Ok(format!(in alloc; "{scheme}://{host}:{port}")?),
        None => Ok(format!(in alloc; "{scheme}://{host}")?),
    }
}

impl Origin {
    /// The origin `null`.
    pub const NULL: Origin = Origin {
        kind: OriginOrNull::Null,
    };

    /// Returns whether the origin is `null`.
    pub fn is_null(&self) -> bool
        ensures { result ≡ origin_is_null self.now }
    {
        match &self.kind {
            OriginOrNull::Null => true,
            OriginOrNull::Tuple(_, _) => false,
        }
    }

    /// Returns the scheme of the origin, which is empty for `null`.
    pub fn scheme(&self) -> &str
        ensures { result.now ≡ origin_scheme self.now }
    {
        match &self.kind {
            OriginOrNull::Tuple(scheme, _) => scheme.as_str(),
            OriginOrNull::Null => "",
        }
    }

    /// Returns the host of the origin, which is empty for `null`. An IPv6 address includes its
    /// brackets.
    pub fn hostname(&self) -> &str
        ensures { result.now ≡ origin_host self.now }
    {
        match &self.kind {
            OriginOrNull::Tuple(_, authority) => authority.host(),
            OriginOrNull::Null => "",
        }
    }

    /// Returns the port of the origin: what follows the last colon of the authority, if it is a
    /// number below 65,536.
    pub fn port(&self) -> Option<u16>
        ensures { IsPortNumberOfSome (origin_authority self.now) result }
    {
        match &self.kind {
            OriginOrNull::Tuple(_, authority) => authority.port_u16(),
            OriginOrNull::Null => None,
        }
    }

    /// Copies the origin. Fails only if an allocation fails.
    pub fn clone(&self, _alloc: Global) -> Result<Origin, AllocError>
        ensures { IfOk result (λ copy. copy ≡ self.now) }
    {
        let kind = match &self.kind {
            OriginOrNull::Tuple(scheme, authority) => {
                OriginOrNull::Tuple(scheme.clone()?, authority.clone()?)
            }
            OriginOrNull::Null => OriginOrNull::Null,
        };
        Ok(Origin { kind })
    }

    /// Makes the origin of a scheme, a host and perhaps a port. The scheme, `://`, the host and, if
    /// there is a port, a colon and the port are parsed as a field line is. `Invalid` if they are
    /// no header value or no origin, `Memory` if an allocation fails.
    pub fn try_from_parts(
        alloc: Global,
        scheme: &str,
        host: &str,
        port: Option<u16>,
    ) -> Result<Origin, Refused<InvalidOrigin>>
        ensures { LineDecodesTo IsOriginText (parts_text scheme.now host.now port) result }
    {
        let text = parts_string(alloc, scheme, host, port)?;
        match origin_of_text(alloc, text.as_str()) {
            Ok(origin) => Ok(origin),
            Err(Refused::Invalid(_)) => Err(Refused::Invalid(InvalidOrigin)),
            Err(Refused::Memory(e)) => Err(Refused::Memory(e)),
        }
    }
}

/// Parses a field line as an origin: `Invalid` if it is none, `Memory` if an allocation fails.
pub fn origin_of_line(line: &HeaderValue) -> Result<Origin, Refused<Error>>
    ensures { LineDecodesTo IsOriginLine line.now.bytes result }
{
    if line.as_bytes() == b"null".as_slice() {
        return Ok(Origin::NULL);
    }
    match Uri::from_shared(line.as_shared().clone()?) {
        Ok(uri) => match origin_of(uri) {
            Some(origin) => Ok(origin),
            None => Err(Refused::Invalid(Error::invalid())),
        },
        Err(UriError::Invalid(_)) => Err(Refused::Invalid(Error::invalid())),
        Err(UriError::OutOfMemory) => Err(Refused::Memory(AllocError)),
    }
}

/// Parses a text as an origin, like a field line. `Invalid` if the text is no header value or no
/// origin, `Memory` if an allocation fails.
pub fn origin_of_text(alloc: Global, text: &str) -> Result<Origin, Refused<Error>>
    ensures { LineDecodesTo IsOriginText text.now result }
{
    match HeaderValue::from_str(alloc, text) {
        Ok(line) => origin_of_line(&line),
        Err(HeaderValueError::Invalid) => Err(Refused::Invalid(Error::invalid())),
        Err(HeaderValueError::OutOfMemory) => Err(Refused::Memory(AllocError)),
    }
}

// Scheme, `://` and authority.
fn tuple_line(
    alloc: Global,
    scheme: &Scheme,
    authority: &Authority,
) -> Result<HeaderValue, AllocError>
    ensures { IfOk result (λ line. line.bytes ≡ tuple_text scheme.now authority.now) }
{
    let (scheme, authority) = (scheme.as_str(), authority.as_str());
    match HeaderValue::from_string(format!(in alloc; "{scheme}://{authority}")?) {
        Ok(line) => Ok(line),
        Err(HeaderValueError::Invalid) => unreachable!(),
        Err(HeaderValueError::OutOfMemory) => Err(AllocError),
    }
}

/// Encodes an origin as a field line. Fails only if an allocation fails.
pub fn line_of_origin(alloc: Global, origin: &Origin) -> Result<HeaderValue, AllocError>
    ensures { IfOk result (λ line. line.bytes ≡ origin_text origin.now) }
{
    match &origin.kind {
        OriginOrNull::Tuple(scheme, authority) => tuple_line(alloc, scheme, authority),
        OriginOrNull::Null => Ok(HeaderValue::from_static("null")),
    }
}

/// Theorem: `null`, and each origin that was parsed from a text, survives a round trip.
pub fn origin_of_own_text()
    ensures null { (origin : Seen) → IsTrue (origin_is_null origin)
        → origin_reads (origin_writes origin) origin }
    ensures others { (text : List ℕ) (origin : Seen) → IsOriginText text origin
        → origin_reads (origin_writes origin) origin }
{}

impl fmt::Display for Origin {
    ghost output = { λ origin. Some (origin_text origin) };

    ghost styled_output = { λ origin _. Some (origin_text origin) };

    fn fmt<W: fmt::Write>(&self, f: &mut fmt::Formatter<W>) -> fmt::Result {
        match &self.kind {
            OriginOrNull::Tuple(scheme, authority) => {
                f.write_str(scheme.as_str())?;
                f.write_str("://")?;
                f.write_str(authority.as_str())
            }
            OriginOrNull::Null => f.write_str("null"),
        }
    }
}

impl Header for Origin {
    ghost use Rattle.std.specs.Prelude.{false, codes};
    ghost use Rattle.headers_hosts.{specs.OneLine.Same, specs.Origin.{origin_reads, origin_writes}};
    ghost use Rattle.headers_hosts.specs.OriginLaws.{origin_laws};

    ghost field_name = { codes "origin" };

    ghost free = { false };

    ghost same = { Same };

    ghost reads = { origin_reads };

    ghost writes = { origin_writes };

    ghost laws = { origin_laws };

    fn name() -> HeaderName {
        ORIGIN
    }

    fn decode<I: Iterator>(_alloc: Global, values: &mut I) -> Result<Origin, Refused<Error>>
    where
        I::Item: AsHeaderValue,
    {
        let line = just_one(values).ok_or(Error::invalid())?;
        origin_of_line(line.as_header_value())
    }

    fn encode(&self, alloc: Global, values: &mut Vec<HeaderValue>) -> Result<(), AllocError> {
        values.push(line_of_origin(alloc, self)?)?;
        Ok(())
    }
}
