//! The answer of a resource.
ghost use Rattle.std.specs.Prelude.{◌≡◌, ◌++◌, List, IfOk, OnOk, option_copied};
ghost use Rattle.headers.specs.LineMap.{Field};
ghost use Rattle.headers.specs.LineMap.{fields_of, lines_at};
ghost use Rattle.decide_resource.specs.Answers.{Gives, Goes, GoesOn};
ghost use Rattle.decide_resource.specs.{Answers.{IsAnswer, Stops, is_admitted, with_metadata}, Requests.request_of};

use crate::chosen::{at_place, responded, selected};
use crate::order::reason_for;
use crate::reason::Reason;
use crate::representation::Representation;
use crate::request::ResourceRequest;
use crate::resource::Resource;
use crate::response::{metadata_fields, reason_fields, sent_for, status_of};
use crate::shared::{push_vary, shared_fields, vary_lines};
use decide_preconditions::{Plan, Response, is_known_by};
use headers::{Encoded, HeaderMap};
use http::StatusCode;
use std::alloc::{AllocError, Global};

/// What the answer to a request sends as content.
#[derive(Debug, Drop)]
pub enum Sends {
    /// Nothing of the resource. The server may explain the status.
    Nothing,
    /// A list of the representations that there are (RFC 9110, section 15.5.7).
    Alternatives,
    /// What the plan sends of the representation at the place, if there is one: all, parts, or
    /// nothing. A response to HEAD never has content (section 9.3.2).
    Planned(Option<usize>, Plan),
    /// The result of the method, which the server performs.
    Perform,
}

/// The answer of a resource to a request: why, which status, what is sent, and which fields.
#[derive(Debug, Drop)]
pub struct Answer {
    /// Why the answer is this one.
    pub reason: Reason,
    /// The status, or `None` if the server performs the method, which decides it.
    pub status: Option<StatusCode>,
    /// What is sent as content.
    pub sends: Sends,
    /// The fields, for `set_all` in their order: one without field lines is removed.
    pub fields: Vec<Encoded>,
}

// An answer but for Vary and what a policy says.
struct Given {
    status: Option<StatusCode>,
    sends: Sends,
    fields: Vec<Encoded>,
}

// The answer to a request that may not go on.
fn stopped(
    alloc: Global,
    resource: &Resource,
    request: &ResourceRequest<'_>,
    reason: Reason,
) -> Result<Given, AllocError>
    ensures { IfOk result (λ given. Stops resource.now (request_of request.now) reason given.status given.sends
        (fields_of given.fields.items)) }
{
    let fields = reason_fields(alloc, resource, request, reason)?;
    Ok(Given {
        status: Some(status_of(&resource.state, request.denied, reason)),
        sends: sent_for(reason),
        fields,
    })
}

// The fields of a response on a representation.
fn with_metadata(
    alloc: Global,
    fields: &HeaderMap,
    representation: Option<&Representation>,
    plan: &Plan,
    sent: Vec<Encoded>,
) -> Result<Vec<Encoded>, AllocError>
    ensures { IfOk result (λ all. fields_of all.items ≡ with_metadata (lines_at fields.now)
        (option_copied representation.entry) plan.now (fields_of sent.items)) }
{
    match representation {
        Some(representation) => {
            let mut all = metadata_fields(alloc, plan, is_known_by(fields), representation)?;
            let mut sent = sent;
            all.append(&mut sent)?;
            Ok(all)
        }
        None => Ok(sent),
    }
}

// What the preconditions and Range make of the representation at a place.
fn going_on(
    alloc: Global,
    resource: &Resource,
    request: &ResourceRequest<'_>,
    present: u64,
    place: Option<usize>,
    representation: Option<&Representation>,
) -> Result<Given, AllocError>
    ensures { IfOk result (λ given. GoesOn present resource.now (request_of request.now) place
        (option_copied representation.entry) given.status given.sends (fields_of given.fields.items)) }
{
    match responded(alloc, resource, request, present, representation)? {
        Some(
            Response {
                plan,
                status,
                fields,
            },
        ) => {
            let fields = with_metadata(alloc, request.fields, representation, &plan, fields)?;
            Ok(Given {
                status: Some(status),
                sends: Sends::Planned(place, plan),
                fields,
            })
        }
        None => Ok(Given {
            status: None,
            sends: Sends::Perform,
            fields: Vec::new(alloc),
        }),
    }
}

// The answer to a request that may go on.
fn admitted(
    alloc: Global,
    resource: &Resource,
    request: &ResourceRequest<'_>,
    present: u64,
) -> Result<Given, AllocError>
    ensures { IfOk result (λ given. Goes present resource.now (request_of request.now) given.status given.sends
        (fields_of given.fields.items)) }
{
    let place = selected(resource, request.fields);
    let representation = at_place(&resource.representations, place);
    going_on(alloc, resource, request, present, place, representation)
}

fn is_admitted(reason: Reason) -> bool
    ensures { result ≡ is_admitted reason }
{
    matches!(reason, Reason::Admitted)
}

fn given_by(
    alloc: Global,
    resource: &Resource,
    request: &ResourceRequest<'_>,
    present: u64,
    reason: Reason,
) -> Result<Given, AllocError>
    ensures { IfOk result (λ given. Gives present resource.now (request_of request.now) reason given.status
        given.sends (fields_of given.fields.items)) }
{
    if is_admitted(reason) {
        return admitted(alloc, resource, request, present);
    }
    stopped(alloc, resource, request, reason)
}

/// Decides the answer of a resource to a request (RFC 9110, sections 7.4 to 15). The first reason
/// that applies decides; or else the preconditions and Range; or else the server performs the
/// method. `present` is the time, in seconds since 1970.
///
/// A server sets the fields in the response, also in that of a method which it performs. Fails only
/// if an allocation fails, which is possible for every request.
pub fn answer_request(
    alloc: Global,
    resource: &Resource,
    request: &ResourceRequest<'_>,
    present: u64,
) -> Result<Answer, AllocError>
    ensures { IfOk result (IsAnswer present resource.now (request_of request.now)) }
{
    let reason = reason_for(resource, request, present);
    let Given {
        status,
        sends,
        mut fields,
    } = given_by(alloc, resource, request, present, reason)?;
    let lines = vary_lines(alloc, resource, reason)?;
    let mut shared = shared_fields(alloc, &resource.cors, request, &lines)?;
    push_vary(&mut fields, lines)?;
    fields.append(&mut shared)?;
    Ok(Answer {
        reason,
        status,
        sends,
        fields,
    })
}
