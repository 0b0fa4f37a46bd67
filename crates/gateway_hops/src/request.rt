//! A request on the next connection.
ghost use Rattle.std.specs.Prelude.{◌≡◌, ◌++◌, IfOk, OnErr, OnOk};
ghost use Rattle.headers.specs.LineMap.{fields_of as encodings_of, lines_at};
ghost use Rattle.gateway_hops.specs.Arrivals.{arrival_parts};
ghost use Rattle.gateway_messages.specs.Requests.{IsForwardable, request_of};
ghost use Rattle.gateway_hops.specs.Connections.{connection_parts};
ghost use Rattle.gateway_hops.specs.Sent.{IsHopOutcome, hop_fields, hop_of, lacks_length};

use crate::arrival::Arrival;
use crate::connection::NextConnection;
use crate::fields::{Forwarding, forwarding_fields};
use crate::replace::replace_fields;
use gateway_messages::{
    Expectation, FieldLine, Framing, Gateway, Protocol, ReceivedRequest, Rejection, RequestOutcome,
    expectation_of, forward_request,
};
use headers::{Encoded, HeaderMap};
use std::alloc::{AllocError, Global};

/// A request as it is sent to the next server, without its content.
#[derive(Debug, Drop)]
pub struct SentRequest {
    /// How the content is delimited, as received and as sent.
    pub framing: Framing,
    /// How often it may still be forwarded, if Max-Forwards limits it.
    pub hops: Option<u64>,
    /// Who sends the 100 (Continue) that the client waits for.
    pub expectation: Expectation,
    /// The fields.
    pub fields: Vec<FieldLine>,
}

/// What a gateway does with a request for the next server.
#[derive(Debug, Drop)]
pub enum HopOutcome {
    /// It sends it to the next server.
    Send(SentRequest),
    /// It responds with 411 (Length Required): the content is chunked, and the server speaks HTTP/1.0
    /// (RFC 9112, section 6.1).
    RequireLength,
    /// It responds as the final recipient, since the request may be forwarded no more (RFC 9110,
    /// section 7.6.2). Its content is delimited so.
    Respond(Framing),
    /// It rejects it.
    Reject(Rejection),
}

// Whether the content is sent in chunks to a server that doesn't know them.
fn lacks_length(framing: Framing, server: Protocol) -> bool
    ensures { result ≡ lacks_length framing server }
{
    match (framing, server) {
        (Framing::Chunked, Protocol::Http10) => true,
        _ => false,
    }
}

// Appends the fields behind others.
fn append(fields: &mut Vec<Encoded>, others: Vec<Encoded>) -> Result<(), AllocError>
    ensures { OnOk result (encodings_of fields.new.items
        ≡ encodings_of fields.old.items ++ encodings_of others.items) }
{
    for field in others {
        fields.push(field)?;
    }
    Ok(())
}

// The fields that the gateway writes for the next server.
fn hop_fields(
    alloc: Global,
    connection: &NextConnection<'_>,
    forwarding: Forwarding,
    arrival: &Arrival<'_>,
    expectation: Expectation,
    received: &HeaderMap,
) -> Result<Vec<Encoded>, AllocError>
    ensures { IfOk result (λ fields. encodings_of fields.items
        ≡ hop_fields (connection_parts connection.now) forwarding (arrival_parts arrival.now) expectation
        (lines_at received.now)) }
{
    let mut fields = connection.fields(alloc)?;
    append(&mut fields, expectation.fields(alloc)?)?;
    append(
        &mut fields,
        forwarding_fields(alloc, forwarding, arrival, received)?,
    )?;
    Ok(fields)
}

/// Decides what a gateway does with a request that it would send to a server known to speak this
/// version of HTTP. `connection` says what it says about its connection to the server, and
/// `arrival` how the request arrived. Fails only if an allocation fails, which is possible only if
/// the request may be forwarded.
pub fn send_request(
    alloc: Global,
    gateway: &Gateway,
    server: Protocol,
    connection: &NextConnection<'_>,
    forwarding: Forwarding,
    arrival: &Arrival<'_>,
    request: &ReceivedRequest<'_>,
) -> Result<HopOutcome, AllocError>
    ensures ok { IfOk result
        (IsHopOutcome gateway.now (hop_of server connection.now forwarding arrival.now) (request_of request.now)) }
    ensures err { OnErr result (IsForwardable gateway.now (request_of request.now)) }
{
    let forwarded = match forward_request(alloc, gateway, request)? {
        RequestOutcome::Forward(forwarded) => forwarded,
        RequestOutcome::Respond(framing) => return Ok(HopOutcome::Respond(framing)),
        RequestOutcome::Reject(rejection) => return Ok(HopOutcome::Reject(rejection)),
    };
    let framing = forwarded.framing;
    if lacks_length(framing, server) {
        return Ok(HopOutcome::RequireLength);
    }
    let expectation = expectation_of(request.protocol, server, framing, request.fields);
    let own = hop_fields(
        alloc,
        connection,
        forwarding,
        arrival,
        expectation,
        request.fields,
    )?;
    Ok(HopOutcome::Send(SentRequest {
        framing,
        hops: forwarded.hops,
        expectation,
        fields: replace_fields(alloc, forwarded.fields, own)?,
    }))
}
