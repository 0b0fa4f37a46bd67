//! What a cache may do with a response.
ghost use Rattle.std.specs.Prelude.{◌≡◌};
ghost use Rattle.c_library.specs.Cache.{Ages, Decides, Guesses, Lives, Stores, Validates, decision_number, kind_of};
ghost use Rattle.c_library.specs.Cache.{times_of};
ghost use Rattle.c_parts.specs.Endings.{Gives, Writes, done};

use crate::giving::give;
use c_decisions::{RequestTexts, fields_text, read_method, read_status};
use c_parts::{DONE, Failure, HashKeys, copy_into, read_map};
use cache_policy::{
    Decision, Kind, RequestHead, StoredHeads, Times, current_age, decide, heuristic_lifetime,
    lifetime, may_store, validation_fields,
};
use std::alloc::Global;

/// The times of a stored response, in seconds since 1970, all by the cache's own clock.
#[repr(C)]
#[derive(Clone, Copy)]
pub struct Moments {
    /// When the request was made that the response answered.
    pub request: u64,
    /// When that response came.
    pub response: u64,
    /// The present.
    pub now: u64,
}

/// A stored response, as C passes it in.
#[repr(C)]
#[derive(Clone, Copy)]
pub struct StoredTexts<'a> {
    /// The method of the request that it answered.
    pub method: &'a [u8],
    /// The header section of that request.
    pub request: &'a [u8],
    /// The header section of the response.
    pub response: &'a [u8],
}

fn times_of(moments: &Moments) -> Times
    ensures { result ≡ times_of moments.entry.now }
{
    Times {
        request: moments.request,
        response: moments.response,
        now: moments.now,
    }
}

fn kind_of(is_shared: bool) -> Kind
    ensures { result ≡ kind_of is_shared }
{
    if is_shared {
        Kind::Shared
    } else {
        Kind::Private
    }
}

/// Tells whether a cache may store the response to a request: 1 if it may, 0 if not (RFC 9111,
/// sections 3 and 3.5).
#[unsafe(no_mangle)]
pub extern "C" fn typed_headers_may_store(
    alloc: Global,
    request: &RequestTexts<'_>,
    status: u16,
    response: &[u8],
    keys: &HashKeys,
    is_shared: bool,
    answer: &mut u8,
) -> u8
    ensures { Gives (Stores request.now status response.now is_shared) answer.old answer.new result }
{
    give(
        stores(alloc, request, status, response, keys, is_shared),
        answer,
    )
}

fn stores(
    alloc: Global,
    request: &RequestTexts<'_>,
    status: u16,
    response: &[u8],
    keys: &HashKeys,
    is_shared: bool,
) -> Result<u8, Failure>
    ensures { Stores request.now status response.now is_shared result }
{
    let method = read_method(alloc, request.method)?;
    let status = read_status(status)?;
    let fields = read_map(alloc, request.section, keys)?;
    let response = read_map(alloc, response, keys)?;
    let head = RequestHead {
        method: &method,
        fields: &fields,
    };
    if may_store(&head, status, &response, kind_of(is_shared)) {
        Ok(1)
    } else {
        Ok(0)
    }
}

/// Gives the lifetime that the origin states, in seconds (RFC 9111, section 4.2.1).
#[unsafe(no_mangle)]
pub extern "C" fn typed_headers_lifetime(
    alloc: Global,
    response: &[u8],
    keys: &HashKeys,
    received: u64,
    is_shared: bool,
    seconds: &mut u64,
) -> u8
    ensures { Gives (Lives response.now received is_shared) seconds.old seconds.new result }
{
    match lives(alloc, response, keys, received, is_shared) {
        Ok(number) => {
            *seconds = number;
            DONE
        }
        Err(failure) => failure.status(),
    }
}

fn lives(
    alloc: Global,
    response: &[u8],
    keys: &HashKeys,
    received: u64,
    is_shared: bool,
) -> Result<u64, Failure>
    ensures { Lives response.now received is_shared result }
{
    let response = read_map(alloc, response, keys)?;
    match lifetime(&response, received, kind_of(is_shared)) {
        Some(seconds) => Ok(seconds),
        None => Err(Failure::Absent),
    }
}

/// Gives a guess of the lifetime, in seconds, if the origin states none (RFC 9111, section 4.2.2).
#[unsafe(no_mangle)]
pub extern "C" fn typed_headers_heuristic_lifetime(
    alloc: Global,
    status: u16,
    response: &[u8],
    keys: &HashKeys,
    received: u64,
    is_shared: bool,
    seconds: &mut u64,
) -> u8
    ensures { Gives (Guesses status response.now received is_shared) seconds.old seconds.new result }
{
    give(
        guesses(alloc, status, response, keys, received, is_shared),
        seconds,
    )
}

fn guesses(
    alloc: Global,
    status: u16,
    response: &[u8],
    keys: &HashKeys,
    received: u64,
    is_shared: bool,
) -> Result<u64, Failure>
    ensures { Guesses status response.now received is_shared result }
{
    let status = read_status(status)?;
    let response = read_map(alloc, response, keys)?;
    match heuristic_lifetime(status, &response, received, kind_of(is_shared)) {
        Some(seconds) => Ok(seconds),
        None => Err(Failure::Absent),
    }
}

/// Gives the age of a response, in seconds (RFC 9111, section 4.2.3).
#[unsafe(no_mangle)]
pub extern "C" fn typed_headers_current_age(
    alloc: Global,
    response: &[u8],
    keys: &HashKeys,
    moments: &Moments,
    seconds: &mut u64,
) -> u8
    ensures { Gives (Ages response.now moments.entry.now) seconds.old seconds.new result }
{
    match ages(alloc, response, keys, moments) {
        Ok(number) => {
            *seconds = number;
            DONE
        }
        Err(failure) => failure.status(),
    }
}

fn ages(alloc: Global, response: &[u8], keys: &HashKeys, moments: &Moments) -> Result<u64, Failure>
    ensures { Ages response.now moments.entry.now result }
{
    let response = read_map(alloc, response, keys)?;
    Ok(current_age(&response, times_of(moments)))
}

/// Decides what a cache does with a request, by a stored response: gives the number of the decision
/// (RFC 9111, section 4, and RFC 5861).
#[unsafe(no_mangle)]
pub extern "C" fn typed_headers_decide(
    alloc: Global,
    stored: &StoredTexts<'_>,
    request: &RequestTexts<'_>,
    keys: &HashKeys,
    moments: &Moments,
    is_shared: bool,
    decision: &mut u8,
) -> u8
    ensures { Gives (Decides stored.now request.now moments.entry.now is_shared) decision.old decision.new result }
{
    give(
        decides(alloc, stored, request, keys, moments, is_shared),
        decision,
    )
}

fn decides(
    alloc: Global,
    stored: &StoredTexts<'_>,
    request: &RequestTexts<'_>,
    keys: &HashKeys,
    moments: &Moments,
    is_shared: bool,
) -> Result<u8, Failure>
    ensures { Decides stored.now request.now moments.entry.now is_shared result }
{
    let stored_method = read_method(alloc, stored.method)?;
    let method = read_method(alloc, request.method)?;
    let stored_fields = read_map(alloc, stored.request, keys)?;
    let fields = read_map(alloc, request.section, keys)?;
    let response = read_map(alloc, stored.response, keys)?;
    let heads = StoredHeads {
        request: RequestHead {
            method: &stored_method,
            fields: &stored_fields,
        },
        response: &response,
    };
    let head = RequestHead {
        method: &method,
        fields: &fields,
    };
    let decision = decide(&heads, &head, times_of(moments), kind_of(is_shared));
    Ok(decision_number(decision))
}

fn decision_number(decision: Decision) -> u8
    ensures { result ≡ decision_number decision }
{
    match decision {
        Decision::Serve => 0,
        Decision::ServeAndRevalidate => 1,
        Decision::ServeStale => 2,
        Decision::Revalidate => 3,
        Decision::RevalidateOrServe => 4,
        Decision::Unavailable => 5,
        Decision::Fetch => 6,
    }
}

/// Gives the fields by which a request validates a stored response (RFC 9111, section 4.3.1).
/// `received` is when that response was received.
#[unsafe(no_mangle)]
pub extern "C" fn typed_headers_validators(
    alloc: Global,
    response: &[u8],
    received: u64,
    keys: &HashKeys,
    room: &mut [u8],
    written: &mut usize,
) -> u8
    ensures { Writes (λ text. text.items) (λ _. done) (Validates response.now received)
        room.old room.new written.old written.new result }
{
    match validators(alloc, response, received, keys) {
        Ok(text) => copy_into(text.as_slice(), DONE, room, written),
        Err(failure) => failure.status(),
    }
}

fn validators(
    alloc: Global,
    response: &[u8],
    received: u64,
    keys: &HashKeys,
) -> Result<Vec<u8>, Failure>
    ensures { Validates response.now received result }
{
    let response = read_map(alloc, response, keys)?;
    if response.is_empty() {
        return Ok(Vec::new(alloc));
    }
    let fields = validation_fields(alloc, &response, received)?;
    Ok(fields_text(alloc, fields.as_slice())?)
}
