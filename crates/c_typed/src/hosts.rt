//! Hosts of `host`, and origins of `origin`.
ghost use Rattle.std.specs.Prelude.{◌≡◌, ℕ, [], ◌∷◌, IfOk, List};
ghost use Rattle.headers.{specs.Host.{host_bytes, host_reads}, specs.Lines.lines_of, specs.Origin.origin_host};
ghost use Rattle.headers.specs.Origin.{origin_reads, origin_scheme, tuple_text};
ghost use Rattle.http_uri.specs.Grammar.{authority_host};
ghost use Rattle.c_typed.specs.Hosts.{ShowsHost, ShowsOrigin, has_whole_port, is_port, is_port_part, is_whole_host};
ghost use Rattle.c_typed.{specs.Hosts.{is_whole_origin, port_shown}, specs.Shown.{FieldShowsIf, ShowsIf}};

use c_decisions::flag_of;
use c_parts::{Failure, read_field};
use headers::{HeaderValue, Host, Origin, encoding};
use rfc_fields::number;
use std::alloc::{AllocError, Global};

/// The number of a port, if there is one.
#[repr(C)]
#[derive(Clone, Copy)]
pub struct PortNumber {
    /// The number, or 0 if there is no port.
    pub number: u16,
    /// 1 if there is a port, else 0.
    pub is_set: u8,
}

fn port_shown(port: Option<u16>) -> PortNumber
    ensures { result ≡ port_shown port }
{
    match port {
        Some(number) => PortNumber { number, is_set: 1 },
        None => PortNumber {
            number: 0,
            is_set: 0,
        },
    }
}

fn is_port(digits: &[u8]) -> bool
    ensures { result ≡ is_port digits.now }
{
    match number(digits) {
        Some(number) => number < 65536,
        None => false,
    }
}

/// Whether this may follow a host: nothing, or a colon and perhaps a port (RFC 3986, section 3.2).
pub fn is_port_part(rest: &[u8]) -> bool
    ensures { result ≡ is_port_part rest.now }
{
    match rest {
        [] => true,
        [byte, digits @ ..] => *byte == b':' && (digits.is_empty() || is_port(digits)),
    }
}

fn has_whole_port(text: &[u8], start: &[u8]) -> bool
    ensures { result ≡ has_whole_port text.now start.now }
{
    text.starts_with(start) && is_port_part(&text[start.len()..])
}

// Whether the only one of these field lines is this text up to the end of the host, and then perhaps a port.
#[tactic(auto, using(crate::proofs::HostLemmas::only_text))]
fn shows_whole_port(lines: &[HeaderValue], start: &[u8]) -> bool
    ensures { (text : List ℕ) → lines_of lines.now ≡ text ∷ [] → result ≡ has_whole_port text start.now }
{
    match lines.first() {
        Some(line) => has_whole_port(line.as_bytes(), start),
        None => false,
    }
}

/// A host and its port.
#[derive(Drop)]
pub struct HostText {
    pub port: PortNumber,
    /// The host, without the port.
    pub text: Vec<u8>,
}

/// Decodes the field lines of `host` to host and port (RFC 9110, section 7.2). `Refused` also if a user
/// precedes the host, or anything but a port below 65,536 follows it.
pub fn read_host(alloc: Global, lines: &[u8]) -> Result<HostText, Failure>
    ensures { FieldShowsIf is_whole_host host_reads ShowsHost lines.now result }
{
    match read_field::<Host>(alloc, lines) {
        Ok(host) => show_host(alloc, &host),
        Err(failure) => Err(failure),
    }
}

fn show_host(alloc: Global, host: &Host) -> Result<HostText, Failure>
    ensures { ShowsIf (is_whole_host host.now) (ShowsHost host.now) result }
{
    match is_whole_host(alloc, host) {
        Ok(true) => match Vec::from_slice(alloc, host.hostname().as_bytes()) {
            Ok(text) => Ok(HostText {
                port: port_shown(host.port()),
                text,
            }),
            Err(_) => Err(Failure::Memory),
        },
        Ok(false) => Err(Failure::Refused),
        Err(_) => Err(Failure::Memory),
    }
}

fn is_whole_host(alloc: Global, host: &Host) -> Result<bool, AllocError>
    ensures { IfOk result (λ is. is ≡ is_whole_host host.now) }
{
    let encoded = encoding(alloc, host)?;
    Ok(shows_whole_port(&encoded.lines, host.hostname().as_bytes()))
}

/// What is told of an origin beside its scheme and its host.
#[repr(C)]
#[derive(Clone, Copy)]
pub struct OriginParts {
    /// The number of bytes of the scheme.
    pub scheme_length: usize,
    pub port: PortNumber,
    /// 1 if the origin is `null`, else 0.
    pub is_null: u8,
}

/// The parts of an origin.
#[derive(Drop)]
pub struct OriginText {
    pub parts: OriginParts,
    /// The scheme and, right after it, the host. Both are empty for `null`.
    pub text: Vec<u8>,
}

/// Decodes the field lines of `origin` to scheme, host and port (RFC 6454, section 7). `Refused` also if a
/// user precedes the host, or anything but a port below 65,536 follows it.
pub fn read_origin(alloc: Global, lines: &[u8]) -> Result<OriginText, Failure>
    ensures { FieldShowsIf is_whole_origin origin_reads ShowsOrigin lines.now result }
{
    match read_field::<Origin>(alloc, lines) {
        Ok(origin) => show_origin(alloc, &origin),
        Err(failure) => Err(failure),
    }
}

fn show_origin(alloc: Global, origin: &Origin) -> Result<OriginText, Failure>
    ensures { ShowsIf (is_whole_origin origin.now) (ShowsOrigin origin.now) result }
{
    match is_whole_origin(alloc, origin) {
        Ok(true) => match origin_text(alloc, origin) {
            Ok(shown) => Ok(shown),
            Err(_) => Err(Failure::Memory),
        },
        Ok(false) => Err(Failure::Refused),
        Err(_) => Err(Failure::Memory),
    }
}

fn is_whole_origin(alloc: Global, origin: &Origin) -> Result<bool, AllocError>
    ensures { IfOk result (λ is. is ≡ is_whole_origin origin.now) }
{
    if origin.is_null() {
        return Ok(true);
    }
    let start = start_of(alloc, origin)?;
    let encoded = encoding(alloc, origin)?;
    Ok(shows_whole_port(&encoded.lines, &start))
}

// The text of an origin up to the end of its host.
fn start_of(alloc: Global, origin: &Origin) -> Result<Vec<u8>, AllocError>
    ensures { IfOk result (λ start. start.items ≡ tuple_text (origin_scheme origin.now) (origin_host origin.now)) }
{
    let mut start = Vec::from_slice(alloc, origin.scheme().as_bytes())?;
    start.extend_from_slice(b"://")?;
    start.extend_from_slice(origin.hostname().as_bytes())?;
    Ok(start)
}

fn origin_text(alloc: Global, origin: &Origin) -> Result<OriginText, AllocError>
    ensures { IfOk result (ShowsOrigin origin.now) }
{
    let scheme = origin.scheme();
    let mut text = Vec::from_slice(alloc, scheme.as_bytes())?;
    text.extend_from_slice(origin.hostname().as_bytes())?;
    Ok(OriginText {
        parts: OriginParts {
            scheme_length: scheme.len(),
            port: port_shown(origin.port()),
            is_null: flag_of(origin.is_null()),
        },
        text,
    })
}
