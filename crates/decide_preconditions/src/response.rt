//! Responses to requests for a representation.
ghost use Rattle.std.specs.Prelude.{◌≡◌, IfOk, OnErr};
ghost use Rattle.headers.specs.LineMap.{lines_at};
ghost use Rattle.decide_preconditions.specs.{Fields.is_known_by, Responses.{IsAnswered, IsPlannedAtAll}};

use crate::content::Sending;
use crate::limits::RangeFacts;
use crate::plan::{Plan, plan_answer};
use crate::resource::TargetState;
use headers::{Encoded, HeaderMap};
use http::StatusCode;
use http_header::IF_RANGE;
use rfc_fields::{RequestHead, has_line};
use std::alloc::{AllocError, Global};

/// The response to a request for a representation: its plan, its status and its fields.
#[derive(Debug, Drop)]
pub struct Response {
    /// Which parts are sent.
    pub plan: Plan,
    /// The status code.
    pub status: StatusCode,
    /// The fields, for `set_all` on those that the server has set. They are ETag, Last-Modified,
    /// Accept-Ranges, Content-Range, Content-Length and Content-Type, each without field lines if
    /// the response doesn't have it, and without field lines Content-Encoding, Content-Digest and
    /// Content-MD5 if they must be removed.
    pub fields: Vec<Encoded>,
}

/// Responds to a GET or HEAD of a current representation, by its preconditions and ranges, and to
/// any request whose preconditions are false (RFC 9110, sections 13.2.2 and 14.2). A HEAD is
/// answered like a GET without `Range`, except for the content.
///
/// The fields are those that RFC 9110 requires (sections 14.3, 14.4, 15.3.7, 15.4.5 and 15.5.17).
/// Last-Modified is `sending.present` if the modification date is later (section 8.8.2.1).
/// After `set_all`, each of the six has exactly its own field lines, whatever the map had.
/// Content-Encoding stays on a 200, and on a 206 with one part unless the request has If-Range;
/// Content-Digest and Content-MD5 stay on a 200. All other fields stay.
///
/// `Ok(None)` if the preconditions let a request pass that isn't a GET or a HEAD of a current
/// representation: the server performs its method, and answers as it does without preconditions.
/// The call fails only if an allocation fails, and never if the result is `None`.
pub fn respond(
    alloc: Global,
    request: &RequestHead<'_>,
    resource: &TargetState,
    sending: &Sending<'_>,
) -> Result<Option<Response>, AllocError>
    ensures answer { IfOk result (IsAnswered sending.now.present request.now.method.now
        (lines_at request.now.fields.now) resource.now sending.now.content.now sending.now.boundary.now) }
    ensures memory { OnErr result (IsPlannedAtAll sending.now.present request.now.method.now
        (lines_at request.now.fields.now) resource.now sending.now.content.now) }
{
    let len = sending.content.divisible_len();
    let limits = sending.content.limits();
    let facts = RangeFacts {
        present: sending.present,
        len,
        limits,
    };
    let Some(plan) = plan_answer(alloc, request, resource, &facts)? else {
        return Ok(None);
    };
    let is_known = is_known_by(request.fields);
    let fields = plan.fields(alloc, is_known, resource, sending)?;
    Ok(Some(Response {
        status: plan.status(),
        plan,
        fields,
    }))
}

/// Returns whether the client already knows a representation, which it names in If-Range (RFC 9110,
/// section 13.1.5).
pub fn is_known_by(request: &HeaderMap) -> bool
    ensures { result ≡ is_known_by (lines_at request.now) }
{
    has_line(&request.get_all(IF_RANGE))
}
