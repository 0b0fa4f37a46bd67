//! The representation that a request selects, and what its preconditions and Range make of it.
ghost use Rattle.std.specs.Prelude.{◌≡◌, ◌<◌, IfOk, IfSome, length, option_copied};
ghost use Rattle.headers.specs.LineMap.{lines_at};
ghost use Rattle.decide_preconditions.specs.{Responses.IsAnswered, declared.resource.TargetState.TheVariants.Current};
ghost use Rattle.decide_resource.specs.Answers.{IsSelected, at_place, bare, content_of, place_in, place_of, target_of};
ghost use Rattle.decide_resource.specs.Requests.{request_of};

use crate::representation::{Representation, preferred};
use crate::request::ResourceRequest;
use crate::resource::{Resource, State};
use decide_preconditions::{
    Content, Response, Sending, TargetState as Target, Validators, respond,
};
use headers::HeaderMap;
use std::alloc::{AllocError, Global};

fn place_of(representations: &[Representation], choice: Option<usize>) -> Option<usize>
    ensures { result ≡ place_of representations.now choice }
{
    match choice {
        Some(place) => Some(place),
        None => {
            if representations.is_empty() {
                None
            } else {
                Some(0)
            }
        }
    }
}

fn place_in(
    state: &State,
    representations: &[Representation],
    choice: Option<usize>,
) -> Option<usize>
    ensures { result ≡ place_in state.now representations.now choice }
{
    match state {
        State::Current => place_of(representations, choice),
        State::Absent | State::Gone | State::Moved(_, _) | State::Server => None,
    }
}

/// The place of the representation that a request selects.
pub(crate) fn selected(resource: &Resource, fields: &HeaderMap) -> Option<usize>
    ensures { IsSelected resource.now (lines_at fields.now) result }
{
    let choice = preferred(&resource.negotiation, fields, &resource.representations);
    place_in(&resource.state, &resource.representations, choice)
}

/// The representation at a place.
pub(crate) fn at_place(
    representations: &[Representation],
    place: Option<usize>,
) -> Option<&Representation>
    ensures { option_copied result ≡ at_place representations.now place }
{
    match place {
        Some(place) => representations.get(place),
        None => None,
    }
}

// What there is without a representation to show.
fn bare(state: &State) -> Target
    ensures { result ≡ bare state.now }
{
    match state {
        State::Current => Target::Current(Validators {
            etag: None,
            last_modified: None,
            is_date_strong: false,
        }),
        State::Absent | State::Gone | State::Moved(_, _) | State::Server => Target::Missing,
    }
}

// A current representation with these validators.
fn current_of(alloc: Global, validators: &Validators) -> Result<Target, AllocError>
    ensures { IfOk result (λ target. target ≡ Current validators.now) }
{
    let etag = match &validators.etag {
        Some(etag) => Some(etag.clone(alloc)?),
        None => None,
    };
    Ok(Target::Current(Validators {
        etag,
        last_modified: validators.last_modified,
        is_date_strong: validators.is_date_strong,
    }))
}

/// What the preconditions of a request and Range make of the selected representation.
pub(crate) fn responded(
    alloc: Global,
    resource: &Resource,
    request: &ResourceRequest<'_>,
    present: u64,
    representation: Option<&Representation>,
) -> Result<Option<Response>, AllocError>
    ensures { IfOk result (IsAnswered present (request_of request.now).method (lines_at request.now.fields.now)
        (target_of resource.now.state (option_copied representation.entry))
        (content_of (option_copied representation.entry)) resource.now.boundary) }
{
    let boundary = &resource.boundary;
    let head = rfc_fields::RequestHead {
        method: request.method,
        fields: request.fields,
    };
    match representation {
        Some(
            Representation {
                validators,
                content,
                ..
            },
        ) => {
            let current = current_of(alloc, validators)?;
            let sending = Sending {
                present,
                content,
                boundary,
            };
            respond(alloc, &head, &current, &sending)
        }
        None => {
            let content = Content {
                len: None,
                media_type: None,
                ranges: None,
            };
            let sending = Sending {
                present,
                content: &content,
                boundary,
            };
            respond(alloc, &head, &bare(&resource.state), &sending)
        }
    }
}
