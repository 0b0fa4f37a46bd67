//! The answer of a resource to a request.
ghost use Rattle.std.{specs.Prelude.{◌≡◌, IfOk, map, option_copied}, specs.Bool.MatchBool};
ghost use Rattle.decide_resource.specs.Requests.{request_of};
ghost use Rattle.server_service.{specs.Answer.{Decides, FitsIn, IsHeldBy, IsSendable}, specs.File.representation_of};
ghost use Rattle.server_service.specs.Parts.{IsKnownToHold, Occurs};

use crate::file::File;
use crate::source::Source;
use decide_preconditions::Plan;
use decide_resource::{Answer, Resource, ResourceRequest, Sends, answer_request};
use http::Method;
use memchr::memmem;
use std::alloc::{AllocError, Global};

fn occurs(bytes: &[u8], content: &[u8]) -> bool
    ensures { MatchBool result (Occurs bytes.now content.now) (¬ (Occurs bytes.now content.now)) }
{
    memmem::find(content, bytes).is_some()
}

// Whether the bytes are known to occur in a file.
fn is_known_to_hold(source: &Source, bytes: &[u8]) -> bool
    ensures { MatchBool result (IsKnownToHold source.now bytes.now) (¬ (IsKnownToHold source.now bytes.now)) }
{
    match source {
        Source::Kept(kept) => occurs(bytes, kept.content().as_slice()),
        Source::Opened(_) => false,
    }
}

fn is_held_by(file: Option<&File>, bytes: &[u8]) -> bool
    ensures { MatchBool result (IsHeldBy bytes.now (option_copied file.entry))
        (¬ (IsHeldBy bytes.now (option_copied file.entry))) }
{
    match file {
        Some(file) => is_known_to_hold(&file.source, bytes),
        None => false,
    }
}

// Whether an answer sends no parts, or parts of a file that isn't known to hold their boundary.
fn is_sendable(sends: &Sends, files: &[File], divider: &str) -> bool
    ensures { MatchBool result (IsSendable divider.now files.now sends.now)
        (¬ (IsSendable divider.now files.now sends.now)) }
{
    match sends {
        Sends::Planned(Some(place), Plan::Multiple(_)) => {
            !is_held_by(files.get(*place), divider.as_bytes())
        }
        _ => true,
    }
}

/// The answer of a resource with these contents. Range is ignored if parts can't be sent.
pub(crate) fn decide(
    alloc: Global,
    resource: &Resource,
    request: &ResourceRequest<'_>,
    present: u64,
    files: &[File],
    divider: &str,
) -> Result<Answer, AllocError>
    requires { resource.now.representations.items ≡ map (representation_of present) files.now }
    ensures answers { IfOk result (Decides present divider.now files.now resource.now (request_of request.now)) }
    ensures fits { IfOk result (λ answer. FitsIn files.now answer.sends) }
{
    let asked = answer_request(alloc, resource, request, present)?;
    if is_sendable(&asked.sends, files, divider) {
        return Ok(asked);
    }
    let head = Method::HEAD;
    let whole = ResourceRequest {
        protocol: request.protocol,
        method: &head,
        authority: request.authority,
        content: request.content,
        fields: request.fields,
        denied: request.denied,
    };
    answer_request(alloc, resource, &whole, present)
}
