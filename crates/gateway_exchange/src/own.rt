//! Why a gateway answers a request itself.
ghost use Rattle.std.specs.Prelude.{◌≡◌, ◌∷◌, IfOk, MatchResult};
ghost use Rattle.http_header.specs.FieldValue.{IsFieldValue};
ghost use Rattle.http1.specs.Head.{header_parts, pairs};
ghost use Rattle.http1_typed.specs.Parts.{reason_of};
ghost use Rattle.gateway_exchange.specs.Own.{PutsOwn, PutsWith, RefusesOwn, RefusesWith, close_fields, closing};
ghost use Rattle.gateway_exchange.specs.Own.{date_field, own_closes, own_status};

use crate::date::OwnDate;
use gateway_connection::OriginFault;
use gateway_messages::Rejection;
use http::StatusCode;
use http1::{BodySize, Header, WriteError};
use server_stream::{StreamConnection, StreamRejection as Unread};
use std::alloc::AllocError;

/// Why a gateway answers a request itself (RFC 9110, sections 15.5 and 15.6).
#[derive(Clone, Copy, Debug, PartialEq, Eq)]
pub enum Own {
    /// The request can't be read.
    Unread(Unread),
    /// It isn't forwarded.
    Rejected(Rejection),
    /// Its target is in no form that is forwarded: 400.
    InvalidTarget,
    /// It is CONNECT, which the gateway doesn't implement: 501.
    Connect,
    /// Its content is chunked, and the next server speaks HTTP/1.0: 411.
    LengthRequired,
    /// Max-Forwards lets it go no further (RFC 9110, section 7.6.2): 200.
    FinalRecipient,
    /// The caller chose this status.
    Chosen(StatusCode),
    /// The request wasn't received within the time limit: 408.
    LateRequest,
    /// The response wasn't received within the time limit: 504.
    LateResponse,
    /// The origin's connection can't take the request: 502.
    Unsent(WriteError),
    /// The origin's connection failed before the head of a final response: 502.
    Origin(OriginFault),
    /// The origin's response isn't forwarded: 502.
    Response(Rejection),
    /// The origin's response can't be written to the client: 502.
    Unsendable(WriteError),
    /// An allocation failed: 500.
    OutOfMemory,
}

/// The field that says that the connection ends after the message (RFC 9112, section 9.6).
const CLOSE: Header<'static> = Header {
    name: b"connection",
    value: b"close",
};

impl Own {
    /// The status of the answer.
    pub fn status(&self) -> StatusCode
        ensures { result ≡ own_status self.now }
    {
        match *self {
            Own::Unread(rejection) => rejection.status(),
            Own::Rejected(rejection) => StatusCode::from_u16(rejection.status()).unwrap_or(
                StatusCode::BAD_REQUEST,
            ),
            Own::InvalidTarget => StatusCode::BAD_REQUEST,
            Own::Connect => StatusCode::NOT_IMPLEMENTED,
            Own::LengthRequired => StatusCode::LENGTH_REQUIRED,
            Own::FinalRecipient => StatusCode::OK,
            Own::Chosen(status) => status,
            Own::LateRequest => StatusCode::REQUEST_TIMEOUT,
            Own::LateResponse => StatusCode::GATEWAY_TIMEOUT,
            Own::Unsent(WriteError::OutOfMemory)
            | Own::Unsendable(WriteError::OutOfMemory)
            | Own::Origin(OriginFault::OutOfMemory)
            | Own::OutOfMemory => StatusCode::INTERNAL_SERVER_ERROR,
            Own::Unsent(_) | Own::Origin(_) | Own::Response(_) | Own::Unsendable(_) =>
                StatusCode::BAD_GATEWAY,
        }
    }

    /// Whether the client's connection closes after the answer: the request is at fault, or came late.
    pub fn closes(&self) -> bool
        ensures { result ≡ own_closes self.now }
    {
        match *self {
            Own::Unread(_)
            | Own::Rejected(_)
            | Own::InvalidTarget
            | Own::Connect
            | Own::LengthRequired
            | Own::LateRequest
            | Own::OutOfMemory => true,
            _ => false,
        }
    }
}

fn reason(status: StatusCode) -> &'static [u8]
    ensures { result.now ≡ reason_of status }
{
    status.canonical_reason().unwrap_or("").as_bytes()
}

fn date_field(date: &OwnDate) -> Header<'_>
    ensures { header_parts result ≡ date_field date.now }
{
    Header {
        name: b"date",
        value: date.value.as_bytes(),
    }
}

// The fields of the answer beside Date and those that frame it.
fn close_fields(closes: bool) -> &'static [Header<'static>]
    ensures { pairs result.now ≡ close_fields closes }
{
    if closes { &[CLOSE] } else { &[] }
}

/// Appends the field that says that the connection ends, if this is the last response.
pub(crate) fn close_if(is_last: bool, fields: &mut Vec<Header<'_>>) -> Result<(), AllocError>
    ensures { IfOk result (λ _. pairs fields.new.items ≡ closing is_last (pairs fields.old.items)) }
{
    if is_last {
        fields.push(CLOSE)?;
    }
    Ok(())
}

// Puts the answer with these fields, without content.
fn put_with(
    own: &Own,
    fields: &[Header<'_>],
    client: &mut StreamConnection,
) -> Result<(), WriteError>
    ensures { MatchResult result (λ _. PutsWith (pairs fields.now) client.old own.now client.new)
        (λ error. RefusesWith (pairs fields.now) client.old own.now error client.new) }
{
    let status = own.status();
    client.respond(status, reason(status), fields, BodySize::Known(0))?;
    client.end(&[])
}

// Puts it with a date.
fn put_dated(
    own: &Own,
    closes: bool,
    date: &OwnDate,
    client: &mut StreamConnection,
) -> Result<(), WriteError>
    ensures { MatchResult result
        (λ _. PutsWith (date_field date.now ∷ close_fields closes) client.old own.now client.new)
        (λ error. RefusesWith (date_field date.now ∷ close_fields closes) client.old own.now error client.new) }
{
    if closes {
        put_with(own, &[date_field(date), CLOSE], client)
    } else {
        put_with(own, &[date_field(date)], client)
    }
}

/// Puts the answer, without content.
pub(crate) fn put_own(
    own: &Own,
    is_last: bool,
    date: &Option<OwnDate>,
    client: &mut StreamConnection,
) -> Result<(), WriteError>
    ensures { MatchResult result (λ _. PutsOwn is_last date.now client.old own.now client.new)
        (λ error. RefusesOwn is_last date.now client.old own.now error client.new) }
{
    let closes = is_last || own.closes();
    match date {
        Some(date) => put_dated(own, closes, date, client),
        None => put_with(own, close_fields(closes), client),
    }
}
