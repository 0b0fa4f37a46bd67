//! The client's side of the handshake (RFC 6455, section 4.1).
ghost use Rattle.std.{specs.Prelude.{◌≡◌, IfOk}, specs.Bool.MatchBool};
ghost use Rattle.websocket.specs.Handshake.{IsValidKey, base64};
ghost use Rattle.headers.specs.LineMap.{fields_of, lines_at};
ghost use Rattle.decide_handshake.{specs.Client.{AcceptsKey, Checks, NamesWebsocket}, specs.Messages.request_fields};

use crate::extensions::{has_extensions, uses_asked_extensions};
use crate::fields::{
    absent, connection_field, field, lists_upgrade, upgrade_field, value_of, version_field,
};
use crate::protocols::uses_asked_protocol;
use headers::{Encoded, HeaderMap, HeaderValue};
use http::StatusCode;
use http_header::{
    SEC_WEBSOCKET_ACCEPT, SEC_WEBSOCKET_EXTENSIONS, SEC_WEBSOCKET_KEY, SEC_WEBSOCKET_PROTOCOL,
    UPGRADE,
};
use rfc_fields::only_value;
use std::alloc::{AllocError, Global};
use websocket::handshake::client::generate_key;
use websocket::handshake::derive_accept_key;

/// Why a client fails the connection: the first rule that the response breaks (RFC 6455, section
/// 4.1).
#[derive(Clone, Copy, Debug, PartialEq, Eq)]
pub enum Flaw {
    /// The status isn't 101. The client may handle it as HTTP says, such as a redirection or a 401.
    NotSwitched,
    /// `Upgrade` isn't one field line `websocket`.
    NoUpgrade,
    /// `Connection` doesn't list `upgrade`.
    NoConnection,
    /// `Sec-WebSocket-Accept` isn't one field line with the accept value of the key that was sent.
    WrongAccept,
    /// `Sec-WebSocket-Extensions` breaks its grammar (section 9.1).
    MalformedExtensions,
    /// `Sec-WebSocket-Extensions` names an extension that the client didn't offer.
    UnaskedExtension,
    /// `Sec-WebSocket-Protocol` has several field lines, or one that isn't a subprotocol that the
    /// client offered.
    UnaskedProtocol,
}

/// The client's result: the connection is open, or it must be failed.
#[derive(Clone, Copy, Debug, PartialEq, Eq)]
pub enum Checked {
    /// The connection is open.
    Open,
    /// The client must fail the connection, for this reason.
    Fail(Flaw),
}

/// Makes the fields of an opening handshake without subprotocols and extensions (RFC 6455, section
/// 4.1). `headers::set_all` sets them in a request's map, and removes old offers. The request is a
/// GET of HTTP/1.1, and has a Host field. To offer something, append it to the map afterwards.
///
/// The nonce is sixteen bytes, drawn at random for each connection. The key that is made of it is
/// marked sensitive, so that logs leave it out. Fails only if an allocation fails.
pub fn request(alloc: Global, nonce: [u8; 16]) -> Result<Vec<Encoded>, AllocError>
    ensures key { IfOk result (λ _. IsValidKey (base64 nonce)) }
    ensures fields { IfOk result (λ fields. fields_of fields.items ≡ request_fields (base64 nonce)) }
{
    let upgrade = upgrade_field(alloc)?;
    let connection = connection_field(alloc)?;
    let version = version_field(alloc)?;
    let key = field(alloc, SEC_WEBSOCKET_KEY, key_of(alloc, nonce)?)?;
    let protocol = absent(alloc, SEC_WEBSOCKET_PROTOCOL);
    let extensions = absent(alloc, SEC_WEBSOCKET_EXTENSIONS);
    Ok(vec![in alloc; upgrade, connection, version, key, protocol, extensions]?)
}

// The key of a nonce, which is kept out of logs.
fn key_of(alloc: Global, nonce: [u8; 16]) -> Result<HeaderValue, AllocError>
    ensures { IfOk result (λ key. IsValidKey key.bytes × (key.bytes ≡ base64 nonce)) }
{
    let mut key = value_of(alloc, &generate_key(nonce))?;
    key.set_sensitive(true);
    Ok(key)
}

/// Checks the response to an opening handshake (RFC 6455, section 4.1). It never fails or
/// allocates. `sent` is the header map of the request, with its key and its offers.
///
/// Only the name of an extension is compared, with case; its parameters are for the extension to
/// check. If the offers in `sent` are malformed, it offers nothing.
pub fn check(sent: &HeaderMap, status: StatusCode, response: &HeaderMap) -> Checked
    ensures { Checks (lines_at sent.now) status (lines_at response.now) result }
{
    if status != StatusCode::SWITCHING_PROTOCOLS {
        return Checked::Fail(Flaw::NotSwitched);
    }
    if !names_websocket(response) {
        return Checked::Fail(Flaw::NoUpgrade);
    }
    if !lists_upgrade(response) {
        return Checked::Fail(Flaw::NoConnection);
    }
    if !accepts_key(sent, response) {
        return Checked::Fail(Flaw::WrongAccept);
    }
    if !has_extensions(response) {
        return Checked::Fail(Flaw::MalformedExtensions);
    }
    if !uses_asked_extensions(sent, response) {
        return Checked::Fail(Flaw::UnaskedExtension);
    }
    if !uses_asked_protocol(sent, response) {
        return Checked::Fail(Flaw::UnaskedProtocol);
    }
    Checked::Open
}

// Whether Upgrade names the protocol of WebSockets and no other.
fn names_websocket(response: &HeaderMap) -> bool
    ensures { MatchBool result (NamesWebsocket (lines_at response.now)) (¬ (NamesWebsocket (lines_at response.now))) }
{
    match only_value(&response.get_all(UPGRADE)) {
        Some(value) => value
            .as_bytes()
            .eq_ignore_ascii_case(b"websocket".as_slice()),
        None => false,
    }
}

// Whether the response has what the key that was sent calls for.
fn accepts_key(sent: &HeaderMap, response: &HeaderMap) -> bool
    ensures { MatchBool result (AcceptsKey (lines_at sent.now) (lines_at response.now))
        (¬ (AcceptsKey (lines_at sent.now) (lines_at response.now))) }
{
    let key = only_value(&sent.get_all(SEC_WEBSOCKET_KEY));
    let accept = only_value(&response.get_all(SEC_WEBSOCKET_ACCEPT));
    match (key, accept) {
        (Some(key), Some(accept)) => accept.as_bytes()
            == derive_accept_key(key.as_bytes()).as_slice(),
        _ => false,
    }
}
