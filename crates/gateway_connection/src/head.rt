//! Fields and heads under spans.
ghost use Rattle.std.specs.Prelude.{◌≡◌, ◌≤◌, drop, length, IfErr, IfOk, OnOk};
ghost use Rattle.httparse.specs.Spans.{IsResponseWithin, IsSectionWithin, IsWithin, span_bytes};
ghost use Rattle.http1.specs.ServerTrace.{headers_at};
ghost use Rattle.gateway_connection.specs.{Content.{IsMapFailure, map_of}, Responses.{IsFieldsFault, IsUnder}};

use crate::event::{OriginFault, OriginResponse};
use bytes::{Bytes, BytesMut};
use http::{HeaderMap, StatusCode};
use http1_typed::header_map;
use httparse::spans::{HeaderSpan, ResponseSpans, Span};
use std::alloc::{AllocError, Global};
use std::hash::RandomState;

/// How many fields the head of a message may have, and how many trailer fields.
pub const MAX_FIELDS: usize = 100;

/// Takes the first bytes off the input, and makes a header map of the fields in them. Fails if no header
/// map takes them, or if an allocation fails.
pub fn take_fields(
    alloc: Global,
    keys: RandomState,
    input: &mut BytesMut,
    len: usize,
    spans: &[HeaderSpan],
    count: usize,
) -> http::Result<HeaderMap>
    requires { IsSectionWithin input.old.items spans.now len count }
    ensures fields { IfOk result (λ fields. fields ≡ map_of (headers_at input.old.items spans.now count)) }
    ensures rest { OnOk result (input.new.items ≡ drop len input.old.items) }
    ensures reason { IfErr result (IsMapFailure (headers_at input.old.items spans.now count)) }
{
    let section = input.freeze_to(len)?;
    header_map(alloc, keys, &section, &spans[..count])
}

// Takes the head under the spans off the input.
pub(crate) fn take_response(
    alloc: Global,
    keys: RandomState,
    input: &mut BytesMut,
    head: &ResponseSpans,
    spans: &[HeaderSpan],
) -> Result<OriginResponse, OriginFault>
    requires within { IsResponseWithin input.old.items spans.now head.now }
    requires status { 100 ≤ head.now.code }
    ensures parts { IfOk result (IsUnder input.old.items spans.now head.now) }
    ensures rest { OnOk result (input.new.items ≡ drop head.now.len input.old.items) }
    ensures reason { IfErr result (IsFieldsFault (headers_at input.old.items spans.now head.now.headers)) }
{
    let Ok(status) = StatusCode::from_u16(head.code) else {
        return Err(OriginFault::OutOfMemory);
    };
    let reason = Bytes::copy_from_slice(alloc, head.reason.of(input.as_slice()))?;
    let fields = take_fields(alloc, keys, input, head.len, spans, head.headers)?;
    Ok(OriginResponse {
        minor: head.version,
        status,
        reason,
        fields,
    })
}

/// Takes the bytes under the span off the input, and those before it. Fails if an allocation fails.
pub fn take_piece(input: &mut BytesMut, piece: Span) -> Result<Bytes, AllocError>
    requires { IsWithin (length input.old.items) piece }
    ensures bytes { IfOk result (λ bytes. bytes ≡ span_bytes input.old.items piece) }
    ensures rest { OnOk result (input.new.items ≡ drop piece.end input.old.items) }
{
    let mut bytes = input.freeze_to(piece.end)?;
    bytes.advance(piece.start);
    Ok(bytes)
}
