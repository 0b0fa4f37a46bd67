//! Extensions (RFC 6455, section 9.1).
ghost use Rattle.std.{specs.Prelude.{◌≡◌, ◌↔◌, IsTrue, true}, specs.Bool.MatchBool};
ghost use Rattle.headers.{specs.LineMap.lines_at, specs.Lines.lines_of};
ghost use Rattle.rfc_fields.{specs.Members.{field_members, member_of}, specs.Values.{is_token, octets_of, value_parts}};
ghost use Rattle.decide_handshake.specs.Extensions.{HasExtensions, IsExtension, IsExtensionList, IsParameter};
ghost use Rattle.decide_handshake.specs.Extensions.{MeansToken, UsesAskedExtensions, UsesListed, AreParameters};
ghost use Rattle.decide_handshake.specs.Extensions.{extension_name, is_among, is_named};

use crate::fields::has_member;
use headers::{HeaderMap, HeaderValue, trim};
use http_header::{GetAll, SEC_WEBSOCKET_EXTENSIONS, is_token_char};
use rfc_fields::{FieldMembers, Malformed, Value, cut, has_line, is_token, read_value};

// Whether a value means a token.
fn is_token_value(value: Value<'_>) -> bool
    ensures { result ≡ is_token (octets_of (value_parts value.entry)) }
{
    let mut octets = value.octets();
    let Some(first) = octets.next() else {
        return false;
    };
    is_token_char(first) && octets.all(|octet| is_token_char(octet))
}

// Whether a text is a value that means a token.
fn means_token(text: &[u8]) -> bool
    ensures { IsTrue result ↔ MeansToken text.now }
{
    match read_value(text) {
        Ok(value) => is_token_value(value),
        Err(Malformed) => false,
    }
}

fn is_parameter(text: &[u8]) -> bool
    ensures { IsTrue result ↔ IsParameter text.now }
{
    match cut(b'=', text) {
        Some((name, value)) => is_token(trim(name)) && means_token(trim(value)),
        None => is_token(text),
    }
}

// Whether parameters are between the semicolons of a text, and nothing else.
fn are_parameters(text: &[u8]) -> bool
    ensures { IsTrue result ↔ AreParameters text.now }
{
    text.split(|byte| *byte == b';')
        .all(|parameter| is_parameter(trim(parameter)))
}

fn is_extension(member: Result<&[u8], Malformed>) -> bool
    ensures { IsTrue result ↔ IsExtension (member_of member.entry) }
{
    match member {
        Ok(element) => match cut(b';', element) {
            Some((name, parameters)) => is_token(trim(name)) && are_parameters(parameters),
            None => is_token(element),
        },
        Err(Malformed) => false,
    }
}

// Whether a list field has a member, and extensions alone.
fn is_extension_list(field: &GetAll<'_, HeaderValue>) -> bool
    ensures { IsTrue result ↔ IsExtensionList (lines_of field.now) }
{
    has_member(field) && FieldMembers::new(field).all(|member| is_extension(member))
}

// Whether the message has no Sec-WebSocket-Extensions, or a list of extensions.
pub(crate) fn has_extensions(map: &HeaderMap) -> bool
    ensures { MatchBool result (HasExtensions (lines_at map.now)) (¬ (HasExtensions (lines_at map.now))) }
{
    !has_line(&map.get_all(SEC_WEBSOCKET_EXTENSIONS))
        || is_extension_list(&map.get_all(SEC_WEBSOCKET_EXTENSIONS))
}

// The name of an extension.
fn extension_name(element: &[u8]) -> &[u8]
    ensures { result.now ≡ extension_name element.now }
{
    match cut(b';', element) {
        Some((name, _)) => trim(name),
        None => element,
    }
}

fn is_named(member: Result<&[u8], Malformed>, name: &[u8]) -> bool
    ensures { result ≡ is_named name.now (member_of member.entry) }
{
    match member {
        Ok(element) => extension_name(element) == name,
        Err(Malformed) => false,
    }
}

// Whether a member of the field has the name of this member.
fn is_among(asked: &GetAll<'_, HeaderValue>, member: Result<&[u8], Malformed>) -> bool
    ensures { result ≡ is_among (field_members true (lines_of asked.now)) (member_of member.entry) }
{
    match member {
        Ok(element) => {
            let name = extension_name(element);
            FieldMembers::new(asked).any(|other| is_named(other, name))
        }
        Err(Malformed) => false,
    }
}

// Whether each extension that a response uses was asked for.
fn uses_listed(sent: &GetAll<'_, HeaderValue>, response: &GetAll<'_, HeaderValue>) -> bool
    ensures { MatchBool result (UsesListed (lines_of sent.now) (lines_of response.now))
        (¬ (UsesListed (lines_of sent.now) (lines_of response.now))) }
{
    is_extension_list(sent) && FieldMembers::new(response).all(|member| is_among(sent, member))
}

// Whether the response uses no extension but those that were asked for.
pub(crate) fn uses_asked_extensions(sent: &HeaderMap, response: &HeaderMap) -> bool
    ensures { MatchBool result (UsesAskedExtensions (lines_at sent.now) (lines_at response.now))
        (¬ (UsesAskedExtensions (lines_at sent.now) (lines_at response.now))) }
{
    !has_line(&response.get_all(SEC_WEBSOCKET_EXTENSIONS))
        || uses_listed(
            &sent.get_all(SEC_WEBSOCKET_EXTENSIONS),
            &response.get_all(SEC_WEBSOCKET_EXTENSIONS),
        )
}
