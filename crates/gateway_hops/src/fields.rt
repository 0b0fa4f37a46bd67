//! The fields that tell the next server how a request arrived.
ghost use Rattle.std.specs.Prelude.{◌≡◌, ◌++◌, ◌∷◌, [], IfOk, OnOk, codes, map, option_map, option_to_list};
ghost use Rattle.std.{specs.Prelude.if◌then◌else◌, specs.List.list_all};
ghost use Rattle.http_header.specs.FieldValue.{plain_value};
ghost use Rattle.headers.{specs.LineMap.{fields_of, lines_at}, specs.Lines.lines_of};
ghost use Rattle.rfc_fields.specs.Members.{is_well_formed};
ghost use Rattle.gateway_hops.{specs.Arrivals.{arrival_parts, scheme_text}, specs.Fields.{believes, client_lines}};
ghost use Rattle.gateway_hops.specs.Fields.{first_told, forwarded_lines, forwarding_fields, host_lines};
ghost use Rattle.gateway_hops.{specs.Fields.{is_believed, kept_if, scheme_lines}, specs.Nodes.bare_text};

use crate::arrival::{Arrival, Scheme};
use crate::element::element;
use crate::node::NodeName;
use headers::{Encoded, HeaderMap, HeaderName, HeaderValue};
use headers_syntax::push_clone;
use http_header::{FORWARDED, GetAll, HeaderValueError};
use rfc_fields::is_well_formed;
use std::alloc::{AllocError, Global};

/// What a gateway does with the fields about earlier gateways that it received. A client can write
/// anything into them.
#[derive(Clone, Copy, Debug, PartialEq, Eq)]
pub enum Received {
    /// The gateway drops them.
    Dropped,
    /// The gateway keeps them if it trusts the node that sent them, and drops them otherwise.
    KeptFromTrusted,
}

/// How a gateway tells the next server who sent a request.
#[derive(Clone, Copy, Debug, PartialEq, Eq)]
pub struct Forwarding {
    /// What it does with the fields that it received.
    pub received: Received,
    /// Whether it sends Forwarded (RFC 7239).
    pub writes_forwarded: bool,
    /// Whether it sends X-Forwarded-For, X-Forwarded-Host and X-Forwarded-Proto.
    pub writes_x_forwarded: bool,
}

fn is_believed(received: Received, is_trusted: bool) -> bool
    ensures { result ≡ is_believed received is_trusted }
{
    match received {
        Received::Dropped => false,
        Received::KeptFromTrusted => is_trusted,
    }
}

fn believes(forwarding: Forwarding, arrival: &Arrival<'_>) -> bool
    ensures { result ≡ believes forwarding (arrival_parts arrival.now) }
{
    is_believed(forwarding.received, arrival.is_trusted)
}

// Whether each quote of the field lines has its end.
fn are_well_formed(received: &GetAll<'_, HeaderValue>) -> bool
    ensures { result ≡ list_all is_well_formed (lines_of received.now) }
{
    for line in received.iter() {
        if !is_well_formed(line.as_bytes()) {
            return false;
        }
    }
    true
}

// Copies of the received field lines, if they are kept.
fn kept_if(
    alloc: Global,
    keeps: bool,
    received: &GetAll<'_, HeaderValue>,
) -> Result<Vec<HeaderValue>, AllocError>
    ensures { IfOk result (λ lines. lines_of lines.items ≡ kept_if keeps (lines_of received.now)) }
{
    let mut lines = Vec::new(alloc);
    if keeps {
        for line in received.iter() {
            push_clone(&mut lines, line)?;
        }
    }
    Ok(lines)
}

fn push_line(lines: &mut Vec<HeaderValue>, line: HeaderValue) -> Result<(), AllocError>
    ensures { OnOk result (lines_of lines.new.items ≡ lines_of lines.old.items ++ line.bytes ∷ []) }
{
    lines.push(line)?;
    Ok(())
}

fn forwarded_lines(
    alloc: Global,
    forwarding: Forwarding,
    arrival: &Arrival<'_>,
    received: &GetAll<'_, HeaderValue>,
) -> Result<Vec<HeaderValue>, AllocError>
    ensures { IfOk result (λ lines. lines_of lines.items
        ≡ forwarded_lines forwarding (arrival_parts arrival.now) (lines_of received.now)) }
{
    let keeps = believes(forwarding, arrival) && are_well_formed(received);
    let mut lines = kept_if(alloc, keeps, received)?;
    if forwarding.writes_forwarded {
        push_line(&mut lines, element(alloc, arrival)?)?;
    }
    Ok(lines)
}

// The client, without brackets.
fn bare_client(alloc: Global, name: &NodeName) -> Result<HeaderValue, AllocError>
    ensures { IfOk result (λ line. line ≡ plain_value (bare_text name.now)) }
{
    let mut text = Vec::new(alloc);
    name.push_bare(alloc, &mut text)?;
    match HeaderValue::from_vec(text) {
        Ok(line) => Ok(line),
        Err(HeaderValueError::Invalid) => unreachable!(),
        Err(HeaderValueError::OutOfMemory) => Err(AllocError),
    }
}

fn client_lines(
    alloc: Global,
    forwarding: Forwarding,
    arrival: &Arrival<'_>,
    received: &GetAll<'_, HeaderValue>,
) -> Result<Vec<HeaderValue>, AllocError>
    ensures { IfOk result (λ lines. lines_of lines.items
        ≡ client_lines forwarding (arrival_parts arrival.now) (lines_of received.now)) }
{
    let mut lines = kept_if(alloc, believes(forwarding, arrival), received)?;
    if forwarding.writes_x_forwarded {
        push_line(&mut lines, bare_client(alloc, &arrival.client.name)?)?;
    }
    Ok(lines)
}

// What was received, if it is kept and there is some, else the gateway's own line.
fn first_told(
    alloc: Global,
    keeps: bool,
    received: &GetAll<'_, HeaderValue>,
    own: Option<HeaderValue>,
) -> Result<Vec<HeaderValue>, AllocError>
    ensures { IfOk result (λ lines. lines_of lines.items
        ≡ first_told keeps (lines_of received.now) (option_to_list (option_map (λ line. line.bytes) own))) }
{
    let mut lines = kept_if(alloc, keeps, received)?;
    if !lines.is_empty() {
        return Ok(lines);
    }
    if let Some(own) = own {
        push_line(&mut lines, own)?;
    }
    Ok(lines)
}

// The Host of the request, if the gateway sends it.
fn own_host(writes: bool, host: Option<&HeaderValue>) -> Result<Option<HeaderValue>, AllocError>
    ensures { IfOk result (λ own. option_to_list (option_map (λ line. line.bytes) own)
        ≡ (if writes then option_to_list (option_map (λ value. value.now.bytes) host.entry) else [])) }
{
    match host {
        Some(host) if writes => Ok(Some(host.clone()?)),
        _ => Ok(None),
    }
}

// The scheme of the request, if the gateway sends it.
fn own_scheme(writes: bool, scheme: Scheme) -> Option<HeaderValue>
    ensures { option_to_list (option_map (λ line. line.bytes) result)
        ≡ (if writes then scheme_text scheme ∷ [] else []) }
{
    match scheme {
        Scheme::Http if writes => Some(HeaderValue::from_static("http")),
        Scheme::Https if writes => Some(HeaderValue::from_static("https")),
        _ => None,
    }
}

fn push_encoded(
    encoded: &mut Vec<Encoded>,
    name: HeaderName,
    lines: Vec<HeaderValue>,
) -> Result<(), AllocError>
    ensures { OnOk result (fields_of encoded.new.items
        ≡ fields_of encoded.old.items ++ (name, lines_of lines.items) ∷ []) }
{
    encoded.push(Encoded { name, lines })?;
    Ok(())
}

/// Makes the fields Forwarded, X-Forwarded-For, X-Forwarded-Host and X-Forwarded-Proto that a
/// gateway sends with a request (RFC 7239, section 4). They replace those that it received; one
/// without field lines is removed. Fails only if an allocation fails.
pub fn forwarding_fields(
    alloc: Global,
    forwarding: Forwarding,
    arrival: &Arrival<'_>,
    fields: &HeaderMap,
) -> Result<Vec<Encoded>, AllocError>
    ensures { IfOk result (λ encoded. fields_of encoded.items
        ≡ forwarding_fields forwarding (arrival_parts arrival.now) (lines_at fields.now)) }
{
    let mut encoded = Vec::new(alloc);
    let writes = forwarding.writes_x_forwarded;
    let keeps = believes(forwarding, arrival);

    let lines = forwarded_lines(alloc, forwarding, arrival, &fields.get_all(FORWARDED))?;
    push_encoded(&mut encoded, FORWARDED, lines)?;

    let received = fields.get_all("x-forwarded-for");
    let lines = client_lines(alloc, forwarding, arrival, &received)?;
    push_encoded(
        &mut encoded,
        HeaderName::from_static("x-forwarded-for"),
        lines,
    )?;

    let received = fields.get_all("x-forwarded-host");
    let lines = first_told(alloc, keeps, &received, own_host(writes, arrival.host)?)?;
    push_encoded(
        &mut encoded,
        HeaderName::from_static("x-forwarded-host"),
        lines,
    )?;

    let received = fields.get_all("x-forwarded-proto");
    let lines = first_told(alloc, keeps, &received, own_scheme(writes, arrival.scheme))?;
    push_encoded(
        &mut encoded,
        HeaderName::from_static("x-forwarded-proto"),
        lines,
    )?;
    Ok(encoded)
}
