//! Both ends of the opening handshake of a WebSocket (RFC 6455, section 4).
ghost use Rattle.std.specs.Prelude.{◌≡◌, ◌≢◌, [], IfOk, IsErr};
ghost use Rattle.decide_handshake.specs.Messages.{answer_fields};
ghost use Rattle.c_decisions.specs.Handshakes.{AnswersHandshake, AreOriginsOf, ChecksResponse, IsVersionOf, Offers};
ghost use Rattle.c_decisions.specs.Handshakes.{IsShownHandshake, checked_number, fault_number, fault_in, flaw_number};

use crate::field_lines::fields_text;
use crate::method::read_method;
use crate::request::RequestTexts;
use crate::star::is_any;
use crate::status_code::read_status;
use crate::texts::values_of;
use c_parts::{Failure, HashKeys, read_map};
use decide_handshake::{Checked, Fault, Flaw, HandshakeAnswer, Origins, accept, check, request};
use headers::Refused;
use http::Version;
use std::alloc::{AllocError, Global};

/// A server's answer to an opening handshake, as numbers.
#[repr(C)]
#[derive(Clone, Copy)]
pub struct HandshakeFacts {
    /// The status: 101, 400, 403 or 426.
    pub status: u16,
    /// The rule that the request breaks, 1 to 9, if the status is 400; else 0.
    pub fault: u8,
}

/// What a server takes of opening handshakes, as C passes it in.
#[repr(C)]
#[derive(Clone, Copy)]
pub struct HandshakeRules<'a> {
    /// Its own subprotocols, one a line, the most wanted first.
    pub protocols: &'a [u8],
    /// The origins whose scripts may open a connection, one a line, or the line `*` for any.
    pub origins: &'a [u8],
}

/// Both ends of an opening handshake, as a client knows them and C passes them in.
#[repr(C)]
#[derive(Clone, Copy)]
pub struct HandshakeExchange<'a> {
    /// The header section that the client sent.
    pub sent: &'a [u8],
    /// The header section of the response.
    pub response: &'a [u8],
    /// The status of the response.
    pub status: u16,
}

/// A server's answer to an opening handshake, and its field lines.
#[derive(Drop)]
pub struct AnsweredHandshake {
    pub facts: HandshakeFacts,
    pub text: Vec<u8>,
}

// The version of a number: 9, 10, 11, 20 or 30.
fn version_of(number: u8) -> Result<Version, Failure>
    ensures { IsVersionOf number result }
{
    match number {
        9 => Ok(Version::HTTP_09),
        10 => Ok(Version::HTTP_10),
        11 => Ok(Version::HTTP_11),
        20 => Ok(Version::HTTP_2),
        30 => Ok(Version::HTTP_3),
        _ => Err(Failure::Refused),
    }
}

// The origins of a text, one a line; any origin if the only line is a star.
fn origins_of(alloc: Global, text: &[u8]) -> Result<Origins, Failure>
    ensures { AreOriginsOf text.now result }
{
    let values = values_of(alloc, text)?;
    if is_any(values.as_slice()) {
        return Ok(Origins::any());
    }
    match Origins::listed(alloc, values) {
        Ok(origins) => Ok(origins),
        Err(Refused::Invalid(_)) => Err(Failure::Refused),
        Err(Refused::Memory(_)) => Err(Failure::Memory),
    }
}

/// What a server with these rules answers to an opening handshake (RFC 6455, sections 4.2.1 and 4.2.2).
pub fn answer_handshake(
    alloc: Global,
    request: &RequestTexts<'_>,
    version: u8,
    keys: &HashKeys,
    rules: &HandshakeRules<'_>,
) -> Result<AnsweredHandshake, Failure>
    ensures { AnswersHandshake request.now version rules.now result }
{
    let method = read_method(alloc, request.method)?;
    let version = version_of(version)?;
    let own = values_of(alloc, rules.protocols)?;
    let origins = origins_of(alloc, rules.origins)?;
    let fields = read_map(alloc, request.section, keys)?;
    let answer = accept(alloc, &method, version, &fields, own.as_slice(), &origins)?;
    Ok(show(alloc, &answer)?)
}

fn show(alloc: Global, answer: &HandshakeAnswer) -> Result<AnsweredHandshake, AllocError>
    ensures shown { IfOk result (IsShownHandshake answer.now) }
    ensures memory { IsErr result → answer_fields answer.now ≢ [] }
{
    let fields = answer.fields(alloc)?;
    let text = fields_text(alloc, fields.as_slice())?;
    let facts = HandshakeFacts {
        status: answer.status().as_u16(),
        fault: fault_in(answer),
    };
    Ok(AnsweredHandshake { facts, text })
}

fn fault_in(answer: &HandshakeAnswer) -> u8
    ensures { result ≡ fault_in answer.now }
{
    match answer {
        HandshakeAnswer::BadRequest(fault) => fault_number(*fault),
        _ => 0,
    }
}

fn fault_number(fault: Fault) -> u8
    ensures { result ≡ fault_number fault }
{
    match fault {
        Fault::NotGet => 1,
        Fault::OldHttp => 2,
        Fault::NotHttp11 => 3,
        Fault::NoHost => 4,
        Fault::NoUpgrade => 5,
        Fault::NoConnection => 6,
        Fault::NoKey => 7,
        Fault::MalformedProtocols => 8,
        Fault::MalformedExtensions => 9,
    }
}

/// The field lines of a client's opening handshake with a nonce of sixteen bytes (RFC 6455, section
/// 4.1).
pub fn offer_handshake(alloc: Global, nonce: &[u8]) -> Result<Vec<u8>, Failure>
    ensures { Offers nonce.now result }
{
    let Ok(nonce) = <[u8; 16]>::try_from(nonce) else {
        return Err(Failure::Refused);
    };
    let fields = request(alloc, nonce)?;
    Ok(fields_text(alloc, fields.as_slice())?)
}

/// Checks the response to a client that sent the fields of a section (RFC 6455, section 4.1): 0 if
/// the connection is open, else the number of the rule that the response breaks, 1 to 7.
pub fn check_response(
    alloc: Global,
    exchange: &HandshakeExchange<'_>,
    keys: &HashKeys,
) -> Result<u8, Failure>
    ensures { ChecksResponse exchange.now result }
{
    let status = read_status(exchange.status)?;
    let sent = read_map(alloc, exchange.sent, keys)?;
    let response = read_map(alloc, exchange.response, keys)?;
    Ok(checked_number(check(&sent, status, &response)))
}

fn checked_number(checked: Checked) -> u8
    ensures { result ≡ checked_number checked }
{
    match checked {
        Checked::Open => 0,
        Checked::Fail(flaw) => flaw_number(flaw),
    }
}

fn flaw_number(flaw: Flaw) -> u8
    ensures { result ≡ flaw_number flaw }
{
    match flaw {
        Flaw::NotSwitched => 1,
        Flaw::NoUpgrade => 2,
        Flaw::NoConnection => 3,
        Flaw::WrongAccept => 4,
        Flaw::MalformedExtensions => 5,
        Flaw::UnaskedExtension => 6,
        Flaw::UnaskedProtocol => 7,
    }
}
