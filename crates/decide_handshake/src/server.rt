//! The server's side of the handshake (RFC 6455, section 4.2).
ghost use Rattle.std.specs.Prelude.{◌≡◌, ◌≢◌, [], IfErr, IfOk, MatchOption, MatchResult, codes, option_map};
ghost use Rattle.std.specs.Bool.{MatchBool};
ghost use Rattle.websocket.specs.Handshake.{accept_key_of};
ghost use Rattle.headers.{specs.LineMap.{field_of, fields_of, lines_at}, specs.Lines.Line};
ghost use Rattle.decide_handshake.{specs.Messages.{answer_fields, status_of, taken_lines}, specs.Server.Answers};
ghost use Rattle.decide_handshake.specs.Server.{HasHost, HasKey, HasVersion13, IsAccepted, IsFirst, IsHttp11, IsRecent};
ghost use Rattle.decide_handshake.specs.declared.server.HandshakeAnswer.TheVariants.{Switch, UpgradeRequired};

use crate::extensions::has_extensions;
use crate::fields::{
    absent, connection_field, field, lists_upgrade, lists_websocket, upgrade_field, value_of,
    version_field,
};
use crate::origins::{Origins, allows_origin};
use crate::protocols::{offers_protocols, taken};
use headers::{Encoded, HeaderMap, HeaderValue};
use http::{Method, StatusCode, Version};
use http_header::{
    HOST, SEC_WEBSOCKET_ACCEPT, SEC_WEBSOCKET_EXTENSIONS, SEC_WEBSOCKET_KEY,
    SEC_WEBSOCKET_PROTOCOL, SEC_WEBSOCKET_VERSION,
};
use rfc_fields::only_value;
use std::alloc::{AllocError, Global};
use websocket::handshake::server::accept_key;

/// Why a request is no opening handshake: the first rule that it breaks (RFC 6455, section 4.2.1).
#[derive(Clone, Copy, Debug, PartialEq, Eq)]
pub enum Fault {
    /// The method isn't GET.
    NotGet,
    /// The version is older than HTTP/1.1.
    OldHttp,
    /// The version is HTTP/2 or HTTP/3, which have no status 101 (RFC 9113, section 8.6; RFC 9114,
    /// section 4.5). A WebSocket over them begins with a CONNECT (RFC 8441, RFC 9220).
    NotHttp11,
    /// There is no Host field, or several field lines (RFC 9112, section 3.2).
    NoHost,
    /// `Upgrade` doesn't list `websocket`.
    NoUpgrade,
    /// `Connection` doesn't list `upgrade`.
    NoConnection,
    /// `Sec-WebSocket-Key` isn't one field line that is the base64 of sixteen bytes.
    NoKey,
    /// `Sec-WebSocket-Protocol` isn't a list of tokens (section 4.3).
    MalformedProtocols,
    /// `Sec-WebSocket-Extensions` isn't a list of extensions (section 9.1).
    MalformedExtensions,
}

/// A server's answer to an opening handshake (RFC 6455, section 4.2.2).
#[derive(Debug, Drop, PartialEq)]
pub enum HandshakeAnswer {
    /// 101: the connection changes to the WebSocket protocol, with this value of
    /// `Sec-WebSocket-Accept`, and with the selected subprotocol, if any.
    Switch(HeaderValue, Option<HeaderValue>),
    /// 400: the request is no opening handshake.
    BadRequest(Fault),
    /// 426: the handshake is for another version than 13.
    UpgradeRequired,
    /// 403: the handshake is from an origin that isn't allowed.
    Forbidden,
}

// Why a server doesn't switch.
pub(crate) enum Refusal {
    // The request is no opening handshake.
    Faulty(Fault),
    // The handshake is for another version than 13.
    OtherVersion,
    // The origin isn't allowed.
    OtherOrigin,
}

impl HandshakeAnswer {
    /// Returns the status of the response: 101, 400, 403 or 426.
    pub fn status(&self) -> StatusCode
        ensures { result ≡ status_of self.now }
    {
        match self {
            HandshakeAnswer::Switch(..) => StatusCode::SWITCHING_PROTOCOLS,
            HandshakeAnswer::BadRequest(_) => StatusCode::BAD_REQUEST,
            HandshakeAnswer::UpgradeRequired => StatusCode::UPGRADE_REQUIRED,
            HandshakeAnswer::Forbidden => StatusCode::FORBIDDEN,
        }
    }

    /// Returns the fields of the response, which `headers::set_all` sets in its map. A 101 also
    /// removes each field line of `Sec-WebSocket-Protocol` and `Sec-WebSocket-Extensions` that
    /// isn't its own. A 400 and a 403 have no fields, and allocate nothing. Fails only if an
    /// allocation fails.
    pub fn fields(&self, alloc: Global) -> Result<Vec<Encoded>, AllocError>
        ensures fields { IfOk result (λ fields. fields_of fields.items ≡ answer_fields self.now) }
        ensures memory { IfErr result (λ _. answer_fields self.now ≢ []) }
    {
        match self {
            HandshakeAnswer::Switch(accept, protocol) => switching_fields(alloc, accept, protocol),
            HandshakeAnswer::UpgradeRequired => version_fields(alloc),
            HandshakeAnswer::BadRequest(_) => Ok(Vec::new(alloc)),
            HandshakeAnswer::Forbidden => Ok(Vec::new(alloc)),
        }
    }
}

// The fields of a change to the WebSocket protocol.
fn switching_fields(
    alloc: Global,
    accept: &HeaderValue,
    protocol: &Option<HeaderValue>,
) -> Result<Vec<Encoded>, AllocError>
    ensures { IfOk result (λ fields. fields_of fields.items ≡ answer_fields (Switch accept.now protocol.now)) }
{
    let upgrade = upgrade_field(alloc)?;
    let connection = connection_field(alloc)?;
    let accept = field(alloc, SEC_WEBSOCKET_ACCEPT, accept.clone()?)?;
    let protocol = protocol_field(alloc, protocol)?;
    let extensions = absent(alloc, SEC_WEBSOCKET_EXTENSIONS);
    Ok(vec![in alloc; upgrade, connection, accept, protocol, extensions]?)
}

// The subprotocol that is taken, if one is.
fn protocol_field(alloc: Global, protocol: &Option<HeaderValue>) -> Result<Encoded, AllocError>
    ensures { IfOk result (λ field. field_of field ≡ (codes "sec-websocket-protocol", taken_lines protocol.now)) }
{
    match protocol {
        Some(protocol) => field(alloc, SEC_WEBSOCKET_PROTOCOL, protocol.clone()?),
        None => Ok(absent(alloc, SEC_WEBSOCKET_PROTOCOL)),
    }
}

// The fields that ask for version 13.
fn version_fields(alloc: Global) -> Result<Vec<Encoded>, AllocError>
    ensures { IfOk result (λ fields. fields_of fields.items ≡ answer_fields UpgradeRequired) }
{
    let upgrade = upgrade_field(alloc)?;
    let connection = connection_field(alloc)?;
    let version = version_field(alloc)?;
    Ok(vec![in alloc; upgrade, connection, version]?)
}

/// Decides the answer to a client's opening handshake (RFC 6455, sections 4.2.1 and 4.2.2). A
/// server without a resource at the request's target answers that instead.
///
/// The rules are checked in order. `Upgrade` and `Connection` are lists, over all their field
/// lines. `Sec-WebSocket-Key` and `Sec-WebSocket-Version` must have one field line. A malformed
/// `Sec-WebSocket-Protocol` or `Sec-WebSocket-Extensions` is a fault.
///
/// The server's own subprotocols are tokens, the preferred one first. The first that the request
/// offers is selected, compared with case; one that isn't a token never is. No extension is
/// selected.
///
/// Only a 101 allocates: the call can run out of memory only if the request is an opening handshake
/// from an allowed origin.
pub fn accept(
    alloc: Global,
    method: &Method,
    version: Version,
    request: &HeaderMap,
    protocols: &[HeaderValue],
    origins: &Origins,
) -> Result<HandshakeAnswer, AllocError>
    ensures answer { IfOk result (Answers method.now version (lines_at request.now) origins.now protocols.now) }
    ensures memory { IfErr result (λ _. (key : Line)
        × IsAccepted method.now version (lines_at request.now) origins.now key) }
{
    match judge(method, version, request, origins) {
        Ok(accept) => Ok(HandshakeAnswer::Switch(
            value_of(alloc, &accept)?,
            own_copy(taken(request, protocols))?,
        )),
        Err(Refusal::Faulty(fault)) => Ok(HandshakeAnswer::BadRequest(fault)),
        Err(Refusal::OtherVersion) => Ok(HandshakeAnswer::UpgradeRequired),
        Err(Refusal::OtherOrigin) => Ok(HandshakeAnswer::Forbidden),
    }
}

fn own_copy(protocol: Option<&HeaderValue>) -> Result<Option<HeaderValue>, AllocError>
    ensures { IfOk result (λ copy. copy ≡ option_map (λ value. value.now) protocol.entry) }
{
    match protocol {
        Some(protocol) => Ok(Some(protocol.clone()?)),
        None => Ok(None),
    }
}

// What the key of the request calls for, if the server switches.
fn judge(
    method: &Method,
    version: Version,
    request: &HeaderMap,
    origins: &Origins,
) -> Result<[u8; 28], Refusal>
    ensures { MatchResult result
        (λ accept. (key : Line) × IsAccepted method.now version (lines_at request.now) origins.now key
        × (accept ≡ accept_key_of key))
        (IsFirst method.now version (lines_at request.now) origins.now) }
{
    if *method != Method::GET {
        return Err(Refusal::Faulty(Fault::NotGet));
    }
    if !is_recent(version) {
        return Err(Refusal::Faulty(Fault::OldHttp));
    }
    if !is_http_11(version) {
        return Err(Refusal::Faulty(Fault::NotHttp11));
    }
    if !has_host(request) {
        return Err(Refusal::Faulty(Fault::NoHost));
    }
    if !lists_websocket(request) {
        return Err(Refusal::Faulty(Fault::NoUpgrade));
    }
    if !lists_upgrade(request) {
        return Err(Refusal::Faulty(Fault::NoConnection));
    }
    let Some(accept) = accept_for(request) else {
        return Err(Refusal::Faulty(Fault::NoKey));
    };
    if !is_version_13(request) {
        return Err(Refusal::OtherVersion);
    }
    if !offers_protocols(request) {
        return Err(Refusal::Faulty(Fault::MalformedProtocols));
    }
    if !has_extensions(request) {
        return Err(Refusal::Faulty(Fault::MalformedExtensions));
    }
    if !allows_origin(origins, request) {
        return Err(Refusal::OtherOrigin);
    }
    Ok(accept)
}

// Whether the version is HTTP/1.1 or higher.
fn is_recent(version: Version) -> bool
    ensures { MatchBool result (IsRecent version) (¬ (IsRecent version)) }
{
    version >= Version::HTTP_11
}

fn is_http_11(version: Version) -> bool
    ensures { MatchBool result (IsHttp11 version) (¬ (IsHttp11 version)) }
{
    version == Version::HTTP_11
}

// Whether there is a Host field on one line.
fn has_host(request: &HeaderMap) -> bool
    ensures { MatchBool result (HasHost (lines_at request.now)) (¬ (HasHost (lines_at request.now))) }
{
    match only_value(&request.get_all(HOST)) {
        Some(_) => true,
        None => false,
    }
}

// What the key of the request calls for, if it has one that is a key.
fn accept_for(request: &HeaderMap) -> Option<[u8; 28]>
    ensures { MatchOption result
        ((key : Line) → ¬ (HasKey (lines_at request.now) key))
        (λ accept. (key : Line) × HasKey (lines_at request.now) key × (accept ≡ accept_key_of key)) }
{
    let key = only_value(&request.get_all(SEC_WEBSOCKET_KEY))?;
    accept_key(key.as_bytes()).ok()
}

// Whether the handshake is for version 13.
fn is_version_13(request: &HeaderMap) -> bool
    ensures { MatchBool result (HasVersion13 (lines_at request.now)) (¬ (HasVersion13 (lines_at request.now))) }
{
    match only_value(&request.get_all(SEC_WEBSOCKET_VERSION)) {
        Some(value) => value.as_bytes() == b"13".as_slice(),
        None => false,
    }
}
