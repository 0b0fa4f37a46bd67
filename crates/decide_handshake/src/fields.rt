//! Fields that both sides check and set.
ghost use Rattle.std.{specs.Prelude.{◌≡◌, ◌∷◌, [], IfOk, codes, true}, specs.Bool.MatchBool, specs.List.list_all};
ghost use Rattle.http_header.specs.FieldValue.{plain_value};
ghost use Rattle.headers.{specs.LineMap.{field_of, lines_at}, specs.Lines.lines_of};
ghost use Rattle.rfc_fields.specs.Members.{field_members, member_of};
ghost use Rattle.decide_handshake.specs.Fields.{HasMember, ListsUpgrade, ListsWebsocket, is_protocol};
ghost use Rattle.decide_handshake.specs.Messages.{version_field};

use headers::{
    Connection, Encoded, HeaderMap, HeaderName, HeaderValue, SecWebsocketVersion, Upgrade, encoding,
};
use http_header::{CONNECTION, GetAll, UPGRADE};
use rfc_fields::{FieldMembers, Malformed, are_tokens, contains_token, cut, is_token};
use std::alloc::{AllocError, Global};

fn is_protocol(member: Result<&[u8], Malformed>) -> bool
    ensures { result ≡ is_protocol (member_of member.entry) }
{
    match member {
        Ok(element) => match cut(b'/', element) {
            Some((name, version)) => is_token(name) && is_token(version),
            None => is_token(element),
        },
        Err(Malformed) => false,
    }
}

// Whether each member of a list field is a protocol.
fn are_protocols(field: &GetAll<'_, HeaderValue>) -> bool
    ensures { result ≡ list_all is_protocol (field_members true (lines_of field.now)) }
{
    FieldMembers::new(field).all(|member| is_protocol(member))
}

// Whether Upgrade lists `websocket`.
pub(crate) fn lists_websocket(map: &HeaderMap) -> bool
    ensures { MatchBool result (ListsWebsocket (lines_at map.now)) (¬ (ListsWebsocket (lines_at map.now))) }
{
    let field = map.get_all(UPGRADE);
    are_protocols(&field) && contains_token(&field, b"websocket")
}

// Whether Connection lists `upgrade`.
pub(crate) fn lists_upgrade(map: &HeaderMap) -> bool
    ensures { MatchBool result (ListsUpgrade (lines_at map.now)) (¬ (ListsUpgrade (lines_at map.now))) }
{
    let field = map.get_all(CONNECTION);
    are_tokens(&field) && contains_token(&field, b"upgrade")
}

// Whether a list field has a member.
pub(crate) fn has_member(field: &GetAll<'_, HeaderValue>) -> bool
    ensures { MatchBool result (HasMember (lines_of field.now)) (¬ (HasMember (lines_of field.now))) }
{
    FieldMembers::new(field).next().is_some()
}

// A value of these bytes.
pub(crate) fn value_of(alloc: Global, bytes: &[u8]) -> Result<HeaderValue, AllocError>
    ensures { IfOk result (λ value. value ≡ plain_value bytes.now) }
{
    match HeaderValue::from_bytes(alloc, bytes) {
        Ok(value) => Ok(value),
        Err(_) => Err(AllocError),
    }
}

// The field with this field line.
pub(crate) fn field(
    alloc: Global,
    name: HeaderName,
    value: HeaderValue,
) -> Result<Encoded, AllocError>
    ensures { IfOk result (λ field. field_of field ≡ (name, value.bytes ∷ [])) }
{
    let lines = vec![in alloc; value]?;
    Ok(Encoded { name, lines })
}

// The field without a field line.
pub(crate) fn absent(alloc: Global, name: HeaderName) -> Encoded
    ensures { field_of result ≡ (name, []) }
{
    Encoded {
        name,
        lines: Vec::new(alloc),
    }
}

// Upgrade and Connection, as a change of protocol has them.
pub(crate) fn upgrade_field(alloc: Global) -> Result<Encoded, AllocError>
    ensures { IfOk result (λ field. field_of field ≡ (codes "upgrade", codes "websocket" ∷ [])) }
{
    encoding(alloc, &Upgrade::websocket())
}

pub(crate) fn connection_field(alloc: Global) -> Result<Encoded, AllocError>
    ensures { IfOk result (λ field. field_of field ≡ (codes "connection", codes "upgrade" ∷ [])) }
{
    encoding(alloc, &Connection::upgrade())
}

pub(crate) fn version_field(alloc: Global) -> Result<Encoded, AllocError>
    ensures { IfOk result (λ field. field_of field ≡ version_field) }
{
    encoding(alloc, &SecWebsocketVersion::V13)
}
