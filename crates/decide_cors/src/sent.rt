//! Which texts browsers send as origins.
ghost use Rattle.std.specs.Prelude.{◌≡◌, ◌≤◌, length, None, Some, IfErr, IfOk, codes, decimal, option_map};
ghost use Rattle.std.specs.{Prelude.◌++◌, List.before_last, List.list_all, List.prefix_len};
ghost use Rattle.url.specs.Host.{parse_special_host};
ghost use Rattle.headers.specs.{Lines.lines_of, Typed.HasLine};
ghost use Rattle.decide_cors.specs.SentOrigins.{has_leading_zero, has_no_origin, has_port, is_colon, is_default_port};
ghost use Rattle.decide_cors.specs.SentOrigins.{is_host_byte, is_port, is_scheme_byte, is_sent, is_sent_authority};
ghost use Rattle.decide_cors.specs.SentOrigins.{is_sent_host, is_sent_port, is_sent_scheme, is_sent_tuple};
ghost use Rattle.decide_cors.specs.SentOrigins.{is_serialized, RejectsList, unsent_place};

use headers::{HeaderValue, Refused};
use headers_syntax::after_last;
use rfc_fields::{cut, number};
use std::alloc::{AllocError, Global};
use std::error::Error;
use std::{fmt, str};
use url::{Host, ParseError};

/// A listed origin has a text that no browser sends, so no request would match it.
#[derive(Clone, Copy, Debug, PartialEq, Eq)]
pub struct UnsentOrigin {
    /// The place of the first such origin in the list, from 0.
    pub place: usize,
}

impl fmt::Display for UnsentOrigin {
    ghost output = { λ unsent. Some (codes "no browser sends the origin at place " ++ decimal unsent.place) };

    fn fmt<W: fmt::Write>(&self, f: &mut fmt::Formatter<W>) -> fmt::Result {
        write!(f, "no browser sends the origin at place {}", self.place)
    }
}

impl Error for UnsentOrigin {}

fn is_scheme_byte(byte: u8) -> bool
    ensures { result ≡ is_scheme_byte byte }
{
    byte.is_ascii_lowercase() || (byte.is_ascii_digit() || matches!(byte, b'+' | b'-' | b'.'))
}

fn has_scheme_bytes(scheme: &[u8]) -> bool
    ensures { result ≡ list_all is_scheme_byte scheme.now }
{
    scheme.iter().all(|byte| is_scheme_byte(*byte))
}

fn has_no_origin(scheme: &[u8]) -> bool
    ensures { result ≡ has_no_origin scheme.now }
{
    scheme == b"ws".as_slice() || (scheme == b"wss".as_slice() || scheme == b"file".as_slice())
}

fn is_sent_scheme(scheme: &[u8]) -> bool
    ensures { result ≡ is_sent_scheme scheme.now }
{
    match scheme {
        [first, ..] => first.is_ascii_lowercase()
            && (has_scheme_bytes(scheme) && !has_no_origin(scheme)),
        [] => false,
    }
}

fn is_host_byte(byte: u8) -> bool
    ensures { result ≡ is_host_byte byte }
{
    byte.is_ascii_graphic() && byte != b'*'
}

fn has_host_bytes(host: &[u8]) -> bool
    ensures { result ≡ list_all is_host_byte host.now }
{
    host.iter().all(|byte| is_host_byte(*byte))
}

// Whether a text is how the host that it is parsed to is serialized.
fn is_serialized(alloc: Global, text: &str) -> Result<bool, AllocError>
    ensures { IfOk result (λ is. is ≡ is_serialized text.now (parse_special_host text.now)) }
{
    match Host::parse(alloc, text) {
        Ok(host) => Ok(format!(in alloc; "{host}")?.as_str() == text),
        Err(ParseError::OutOfMemory | ParseError::Overflow) => Err(AllocError),
        Err(_) => Ok(false),
    }
}

fn is_sent_host(alloc: Global, host: &[u8]) -> Result<bool, AllocError>
    ensures { IfOk result (λ is. is ≡ is_sent_host host.now) }
{
    if !has_host_bytes(host) {
        return Ok(false);
    }
    match str::from_utf8(host) {
        Ok(text) => is_serialized(alloc, text),
        Err(_) => unreachable!(),
    }
}

fn is_default_port(scheme: &[u8], port: &[u8]) -> bool
    ensures { result ≡ is_default_port scheme.now port.now }
{
    (scheme == b"http".as_slice() && port == b"80".as_slice())
        || ((scheme == b"https".as_slice() && port == b"443".as_slice())
            || (scheme == b"ftp".as_slice() && port == b"21".as_slice()))
}

fn has_leading_zero(port: &[u8]) -> bool
    ensures { result ≡ has_leading_zero port.now }
{
    port.starts_with(b"0") && port.len() > 1
}

fn is_port(port: &[u8]) -> bool
    ensures { result ≡ is_port port.now }
{
    match number(port) {
        Some(number) => number < 65536 && !has_leading_zero(port),
        None => false,
    }
}

fn is_sent_port(scheme: &[u8], port: &[u8]) -> bool
    ensures { result ≡ is_sent_port scheme.now port.now }
{
    is_port(port) && !is_default_port(scheme, port)
}

fn has_port(authority: &[u8]) -> bool
    ensures { result ≡ has_port authority.now }
{
    authority.contains(&b':') && !authority.ends_with(b"]")
}

// What is before the last colon.
fn before_port(authority: &[u8]) -> &[u8]
    ensures { result.now ≡ before_last is_colon authority.now }
{
    let port = after_last(authority, b':');
    &authority[..authority.len().saturating_sub(port.len() + 1)]
}

fn is_sent_authority(alloc: Global, scheme: &[u8], authority: &[u8]) -> Result<bool, AllocError>
    ensures { IfOk result (λ is. is ≡ is_sent_authority scheme.now authority.now) }
{
    if !has_port(authority) {
        return is_sent_host(alloc, authority);
    }
    if !is_sent_port(scheme, after_last(authority, b':')) {
        return Ok(false);
    }
    is_sent_host(alloc, before_port(authority))
}

fn is_sent_tuple(alloc: Global, scheme: &[u8], rest: &[u8]) -> Result<bool, AllocError>
    ensures { IfOk result (λ is. is ≡ is_sent_tuple (Some (scheme.now, rest.now))) }
{
    if !is_sent_scheme(scheme) || !rest.starts_with(b"//") {
        return Ok(false);
    }
    is_sent_authority(alloc, scheme, &rest[2..])
}

fn is_sent(alloc: Global, text: &[u8]) -> Result<bool, AllocError>
    ensures { IfOk result (λ is. is ≡ is_sent text.now) }
{
    if text == b"null".as_slice() {
        return Ok(true);
    }
    match cut(b':', text) {
        Some((scheme, rest)) => is_sent_tuple(alloc, scheme, rest),
        None => Ok(false),
    }
}

// How many origins are before the first that no browser sends.
fn sent_count(alloc: Global, listed: &[HeaderValue]) -> Result<usize, AllocError>
    ensures count { IfOk result (λ count. count ≡ prefix_len (λ origin. is_sent origin.bytes) listed.now) }
    ensures within { IfOk result (λ count. count ≤ length (lines_of listed.now)) }
    ensures memory { IfErr result (λ _. HasLine (lines_of listed.now)) }
{
    for (place, origin) in listed.iter().enumerate() {
        if !is_sent(alloc, origin.as_bytes())? {
            return Ok(place);
        }
    }
    Ok(listed.len())
}

/// Checks that browsers send each of the listed origins: `null`, or a scheme, `://`, a host and
/// perhaps a port, as the URL standard serializes them. `Invalid` says which the first is that none
/// sends. `Memory` only if the list has an origin.
pub fn check_origins(alloc: Global, listed: &[HeaderValue]) -> Result<(), Refused<UnsentOrigin>>
    ensures ok { IfOk result (λ _. unsent_place (lines_of listed.now) ≡ None) }
    ensures err { IfErr result (RejectsList (lines_of listed.now)) }
{
    let place = sent_count(alloc, listed)?;
    if place < listed.len() {
        return Err(Refused::Invalid(UnsentOrigin { place }));
    }
    Ok(())
}
