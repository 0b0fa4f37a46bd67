//! The field Host.
ghost use Rattle.std.specs.{Prelude.{◌≡◌, ◌≤◌, codes, length}, Char.is_ascii_digit, List.list_all};
ghost use Rattle.{headers.specs.LineMap.lines_at, gateway_messages.specs.Hosts.{is_address_byte, is_mark}};
ghost use Rattle.gateway_messages.specs.{Hosts.{is_name_byte, is_sub_delim}, HostTests.{begins_encoded, begins_part}};
ghost use Rattle.gateway_messages.specs.HostTests.{is_address, is_dotted_address, is_future_address, is_host, is_ipv6};
ghost use Rattle.gateway_messages.specs.HostTests.{is_literal_host, is_named_host, is_port, is_reg_name, is_versioned};
ghost use Rattle.gateway_messages.specs.{HostTests.{literal_len, name_len, version_len}, Requests.has_host};

use crate::protocol::Protocol;
use headers::HeaderMap;
use http_header::HOST;
use std::net::Ipv6Addr;

fn is_mark(byte: u8) -> bool
    ensures { result ≡ is_mark byte }
{
    byte == b'-' || byte == b'.' || byte == b'_' || byte == b'~'
}

fn is_sub_delim(byte: u8) -> bool
    ensures { result ≡ is_sub_delim byte }
{
    byte == b'!'
        || byte == b'$'
        || byte == b'&'
        || byte == b'\''
        || byte == b'('
        || byte == b')'
        || byte == b'*'
        || byte == b'+'
        || byte == b','
        || byte == b';'
        || byte == b'='
}

fn is_name_byte(byte: u8) -> bool
    ensures { result ≡ is_name_byte byte }
{
    byte.is_ascii_alphanumeric() || is_mark(byte) || is_sub_delim(byte)
}

fn is_address_byte(byte: u8) -> bool
    ensures { result ≡ is_address_byte byte }
{
    is_name_byte(byte) || byte == b':'
}

// Whether a text begins with an encoded byte.
fn begins_encoded(text: &[u8]) -> bool
    ensures { result ≡ begins_encoded text.now }
{
    match text {
        [b'%', high, low, ..] => high.is_ascii_hexdigit() && low.is_ascii_hexdigit(),
        _ => false,
    }
}

fn begins_part(text: &[u8]) -> bool
    ensures { result ≡ begins_part text.now }
{
    match text {
        [byte, ..] => is_name_byte(*byte) || begins_encoded(text),
        [] => false,
    }
}

// Whether a text is a registered name. IPv4 addresses are among them.
fn is_reg_name(text: &[u8]) -> bool
    ensures { result ≡ is_reg_name text.now }
{
    let mut rest = text;
    while let [_, behind @ ..] = rest {
        if !begins_part(rest) {
            return false;
        }
        rest = behind;
    }
    true
}

fn are_address_bytes(text: &[u8]) -> bool
    ensures { result ≡ list_all is_address_byte text.now }
{
    text.iter().all(|byte| is_address_byte(*byte))
}

fn is_dotted_address(text: &[u8]) -> bool
    ensures { result ≡ is_dotted_address text.now }
{
    match text {
        [b'.', address @ ..] => !address.is_empty() && are_address_bytes(address),
        _ => false,
    }
}

fn version_len(text: &[u8]) -> usize
    ensures value { result ≡ version_len text.now }
    ensures within { result ≤ length text.now }
{
    text.iter()
        .take_while(|byte| byte.is_ascii_hexdigit())
        .count()
}

fn is_versioned(text: &[u8]) -> bool
    ensures { result ≡ is_versioned text.now }
{
    let end = version_len(text);
    end > 0 && is_dotted_address(&text[end..])
}

// Whether a text is an address of a future version.
fn is_future_address(text: &[u8]) -> bool
    ensures { result ≡ is_future_address text.now }
{
    match text {
        [b'v' | b'V', rest @ ..] => is_versioned(rest),
        _ => false,
    }
}

fn is_ipv6(text: &[u8]) -> bool
    ensures { result ≡ is_ipv6 text.now }
{
    Ipv6Addr::parse_ascii(text).is_ok()
}

fn is_address(text: &[u8]) -> bool
    ensures { result ≡ is_address text.now }
{
    is_ipv6(text) || is_future_address(text)
}

fn are_digits(text: &[u8]) -> bool
    ensures { result ≡ list_all is_ascii_digit text.now }
{
    text.iter().all(|digit| digit.is_ascii_digit())
}

/// Whether a text is the end of a host: nothing, or a colon and digits (RFC 3986, section 3.2.3).
pub fn is_port(text: &[u8]) -> bool
    ensures { result ≡ is_port text.now }
{
    match text {
        [] => true,
        [b':', digits @ ..] => are_digits(digits),
        _ => false,
    }
}

fn literal_len(text: &[u8]) -> usize
    ensures value { result ≡ literal_len text.now }
    ensures within { result ≤ length text.now }
{
    text.iter().take_while(|byte| **byte != b']').count()
}

fn name_len(text: &[u8]) -> usize
    ensures value { result ≡ name_len text.now }
    ensures within { result ≤ length text.now }
{
    text.iter().take_while(|byte| **byte != b':').count()
}

// Whether an address, a closing bracket and maybe a port follow the opening bracket.
fn is_literal_host(rest: &[u8]) -> bool
    ensures { result ≡ is_literal_host rest.now }
{
    let end = literal_len(rest);
    end < rest.len() && is_address(&rest[..end]) && is_port(&rest[end + 1..])
}

fn is_named_host(line: &[u8]) -> bool
    ensures { result ≡ is_named_host line.now }
{
    let end = name_len(line);
    is_reg_name(&line[..end]) && is_port(&line[end..])
}

// Whether a field line is a value of Host.
fn is_host(line: &[u8]) -> bool
    ensures { result ≡ is_host line.now }
{
    match line {
        [b'[', rest @ ..] => is_literal_host(rest),
        _ => is_named_host(line),
    }
}

/// Returns whether a request has exactly one valid field line of Host, or none in HTTP/1.0 (RFC
/// 9112, section 3.2).
pub fn has_host(protocol: Protocol, fields: &HeaderMap) -> bool
    ensures { result ≡ has_host protocol (lines_at fields.now (codes "host")) }
{
    let mut hosts = fields.get_all(HOST).iter();
    match hosts.next() {
        None => matches!(protocol, Protocol::Http10),
        Some(host) => hosts.next().is_none() && is_host(host.as_bytes()),
    }
}
