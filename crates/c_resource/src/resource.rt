//! A resource, as C hands it in.
ghost use Rattle.std.specs.Prelude.{◌≡◌};
ghost use Rattle.c_decisions.specs.Contents.{IsBoundaryOf};
ghost use Rattle.c_resource.specs.Resources.{AreHostsRead, IsCorsAnswer, IsResourceAnswer};
ghost use Rattle.c_resource.specs.Resources.{IsStateAnswer, boundary_text, negotiation_of, redirect_of};

use crate::implemented::read_implemented;
use crate::method_rule::read_rules;
use crate::representation::{RepresentationParts, read_representations};
use crate::values::read_filled;
use c_decisions::{Rules, boundary_of, known, read_policy, values_of};
use c_parts::Failure;
use decide_cors::CorsPolicy;
use decide_preconditions::Boundary;
use decide_resource::{Negotiation, Redirect, Resource, State};
use headers::HeaderValue;
use std::alloc::Global;

/// What stands between several parts, if nothing is said of it.
const USUAL_BOUNDARY: &[u8] = b"THIS_STRING_SEPARATES";

/// What a server knows of the target of a request before it performs a method. Each text has one value
/// a line.
#[repr(C)]
#[derive(Clone, Copy)]
pub struct ResourceParts<'a> {
    /// The hosts that it is served for, as they are written in Host, or none for any.
    pub hosts: &'a [u8],
    /// The methods that it has.
    pub methods: &'a [u8],
    /// Those of them that are performed if there is no current representation.
    pub creating: &'a [u8],
    /// Those of them that need a precondition which names what they may replace (RFC 6585, section 3).
    pub guarded: &'a [u8],
    /// The media types that each method takes, at its place: a field line of Accept. Without a line,
    /// or if it is empty, any are taken.
    pub accept: &'a [u8],
    /// The codings that each takes, at its place: a field line of Accept-Encoding. Without a line, or
    /// if it is empty, none is taken.
    pub accept_encoding: &'a [u8],
    /// Where it is, if it has moved. Any other state ignores it.
    pub location: &'a [u8],
    /// The media type of each representation, at its place. It isn't known without a line, or if that
    /// is empty.
    pub media_types: &'a [u8],
    /// The language of each, at its place. It has none without a line, or if that is empty.
    pub languages: &'a [u8],
    /// The coding of each, at its place. It has none without a line, or if that is empty.
    pub codings: &'a [u8],
    /// The entity tag of each, at its place. It has none without a line, or if that is empty.
    pub etags: &'a [u8],
    /// The boundary between several parts. Empty, it is `THIS_STRING_SEPARATES`.
    pub boundary: &'a [u8],
    /// The methods that the server implements for some resource, if `has_implemented` (RFC 9110, section
    /// 9.1), with GET, HEAD and those that this one has. If not: those of RFC 9110, and PATCH.
    pub implemented: &'a [u8],
    /// The greatest length of content that is taken, if `has_limit`.
    pub limit: u64,
    /// 0 if it has a current representation, 1 if it has none, 2 if it is gone for good, 3 if it is the
    /// server in general; 301, 307 or 308 if it is under another URI.
    pub state: u16,
    /// Whether a representation is chosen by its media type.
    pub by_media_type: bool,
    /// Whether it is chosen by its language.
    pub by_language: bool,
    /// Whether it is chosen by its coding.
    pub by_coding: bool,
    /// Whether a read is answered by 406 if no representation is acceptable.
    pub is_strict: bool,
    /// Whether content must have a length.
    pub needs_length: bool,
    /// Whether its length is limited.
    pub has_limit: bool,
    /// Whether there are rules for requests from other origins.
    pub has_cors: bool,
    /// Whether it is said which methods the server implements.
    pub has_implemented: bool,
    /// Whether each change of a representation gives it a later date (RFC 9110, section 8.8.2.2).
    pub has_strong_dates: bool,
}

/// A resource, as C hands it in.
#[derive(Clone, Copy)]
pub struct GivenResource<'a> {
    /// What is said of it, and the lines of its methods and of its representations.
    pub parts: &'a ResourceParts<'a>,
    /// What else is said of each representation.
    pub representations: &'a [RepresentationParts],
    /// The rules for requests from other origins, which count if it has some.
    pub rules: &'a Rules<'a>,
}

fn read_hosts(alloc: Global, text: &[u8]) -> Result<Option<Vec<HeaderValue>>, Failure>
    ensures { AreHostsRead text.now result }
{
    if text.is_empty() {
        return Ok(None);
    }
    Ok(Some(values_of(alloc, text)?))
}

fn redirect_of(number: u16) -> Option<Redirect>
    ensures { result ≡ redirect_of number }
{
    match number {
        301 => Some(Redirect::MovedPermanently),
        307 => Some(Redirect::Temporary),
        308 => Some(Redirect::Permanent),
        _ => None,
    }
}

fn read_state(alloc: Global, number: u16, location: &[u8]) -> Result<State, Failure>
    ensures { IsStateAnswer number location.now result }
{
    match number {
        0 => Ok(State::Current),
        1 => Ok(State::Absent),
        2 => Ok(State::Gone),
        3 => Ok(State::Server),
        _ => match redirect_of(number) {
            Some(redirect) => Ok(State::Moved(redirect, read_filled(alloc, location)?)),
            None => Err(Failure::Refused),
        },
    }
}

fn negotiation_of(parts: &ResourceParts<'_>) -> Negotiation
    ensures { result ≡ negotiation_of parts.entry.now }
{
    Negotiation {
        media_type: parts.by_media_type,
        language: parts.by_language,
        coding: parts.by_coding,
        is_strict: parts.is_strict,
    }
}

fn read_boundary(alloc: Global, text: &[u8]) -> Result<Boundary, Failure>
    ensures { IsBoundaryOf (boundary_text text.now) result }
{
    boundary_of(
        alloc,
        if text.is_empty() {
            USUAL_BOUNDARY
        } else {
            text
        },
    )
}

fn read_cors(
    alloc: Global,
    has_cors: bool,
    rules: &Rules<'_>,
) -> Result<Option<CorsPolicy>, Failure>
    ensures { IsCorsAnswer has_cors rules.entry.now result }
{
    if has_cors {
        Ok(Some(read_policy(alloc, rules)?))
    } else {
        Ok(None)
    }
}

/// The resource that is said.
pub fn read_resource(
    alloc: Global,
    parts: &ResourceParts<'_>,
    numbers: &[RepresentationParts],
    rules: &Rules<'_>,
) -> Result<Resource, Failure>
    ensures { IsResourceAnswer parts.entry.now numbers.now rules.entry.now result }
{
    let state = read_state(alloc, parts.state, parts.location)?;
    let boundary = read_boundary(alloc, parts.boundary)?;
    let implemented = read_implemented(alloc, parts.has_implemented, parts.implemented)?;
    let hosts = read_hosts(alloc, parts.hosts)?;
    let methods = read_rules(alloc, parts)?;
    let representations = read_representations(alloc, parts, numbers)?;
    let cors = read_cors(alloc, parts.has_cors, rules)?;
    Ok(Resource {
        hosts,
        implemented,
        rules: methods,
        state,
        representations,
        negotiation: negotiation_of(parts),
        boundary,
        has_strong_dates: parts.has_strong_dates,
        needs_length: parts.needs_length,
        limit: known(parts.has_limit, parts.limit),
        cors,
    })
}
