//! The fields of a message that are meant for one connection.
ghost use Rattle.std.specs.{Prelude.{◌≡◌, ◌∷◌, [], IsTrue, bytes_eq, true}, List.list_any};
ghost use Rattle.headers_syntax.specs.AsciiCase.{same_name};
ghost use Rattle.{headers.specs.Lines.lines_of, rfc_fields.specs.Members.field_members};
ghost use Rattle.gateway_messages.specs.HopByHop.{is_hop_by_hop, is_known, is_named, names_protected, proxy_fields};
ghost use Rattle.gateway_messages.specs.HopByHop.{protected_fields};

use headers::{HeaderName, HeaderValue};
use http_header::GetAll;
use rfc_fields::{contains_token, has_line, only_value};

// Whether the only field line is this word.
fn is_word(connection: &GetAll<'_, HeaderValue>, word: &[u8]) -> bool
    ensures { IsTrue result → lines_of connection.now ≡ word.now ∷ [] }
{
    match only_value(connection) {
        Some(value) => value.as_bytes() == word,
        None => false,
    }
}

fn is_same(word: &[u8], name: &str) -> bool
    ensures { result ≡ same_name word.now name.now }
{
    word.eq_ignore_ascii_case(name.as_bytes())
}

// Whether a connection option names the field. Most messages have none, or one of these words: no list is parsed then.
fn is_named(connection: &GetAll<'_, HeaderValue>, name: &str) -> bool
    ensures { result ≡ is_named (field_members true (lines_of connection.now)) name.now }
{
    if !has_line(connection) {
        return false;
    }
    if is_word(connection, b"keep-alive") {
        return is_same(b"keep-alive", name);
    }
    if is_word(connection, b"close") {
        return is_same(b"close", name);
    }
    contains_token(connection, name.as_bytes())
}

// Whether a connection option names one of the fields.
fn names_some(connection: &GetAll<'_, HeaderValue>, names: &[HeaderName]) -> bool
    ensures { result ≡ list_any (is_named (field_members true (lines_of connection.now))) names.now }
{
    names.iter().any(|name| is_named(connection, name.as_str()))
}

// Whether a connection option names a field that is always protected.
fn names_always_protected(connection: &GetAll<'_, HeaderValue>) -> bool
    ensures { result ≡ list_any (is_named (field_members true (lines_of connection.now))) protected_fields }
{
    is_named(connection, "host")
        || is_named(connection, "content-length")
        || is_named(connection, "transfer-encoding")
        || is_named(connection, "via")
        || is_named(connection, "max-forwards")
        || is_named(connection, "date")
        || is_named(connection, "cache-control")
        || is_named(connection, "authorization")
        || is_named(connection, "cookie")
        || is_named(connection, "set-cookie")
}

/// Whether a connection option names a field that no peer may have removed: one that is always
/// protected, or one of these.
pub(crate) fn names_protected(connection: &GetAll<'_, HeaderValue>, further: &[HeaderName]) -> bool
    ensures { result ≡ names_protected further.now (field_members true (lines_of connection.now)) }
{
    names_always_protected(connection) || names_some(connection, further)
}

// Whether the field is of one connection, whatever Connection says.
fn is_known(consumes: bool, name: &str) -> bool
    ensures { result ≡ is_known consumes name.now }
{
    name == "connection"
        || name == "keep-alive"
        || name == "proxy-connection"
        || name == "te"
        || name == "transfer-encoding"
        || name == "upgrade"
        || (consumes && is_of_proxy(name))
}

fn is_of_proxy(name: &str) -> bool
    ensures { result ≡ list_any (bytes_eq name.now) proxy_fields }
{
    name == "proxy-authenticate"
        || name == "proxy-authentication-info"
        || name == "proxy-authorization"
}

/// Returns whether a field with this name, in lower case, is for one connection: by its name, or
/// because a connection option names it (RFC 9110, section 7.6.1). `consumes` says whether fields
/// for a proxy are as well (section 11.7).
pub fn is_hop_by_hop(consumes: bool, connection: &GetAll<'_, HeaderValue>, name: &str) -> bool
    ensures { result ≡ is_hop_by_hop consumes (field_members true (lines_of connection.now)) name.now }
{
    is_known(consumes, name) || is_named(connection, name)
}
