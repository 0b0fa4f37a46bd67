//! What the response to a request for a representation has.
ghost use Rattle.std.specs.Prelude.{◌≡◌, IfOk, OnErr};
ghost use Rattle.headers.specs.LineMap.{lines_at};
ghost use Rattle.decide_preconditions.specs.{Plans.{IsPlanned, IsSentAs, ReadsSome}, Fields.status_of};

use crate::limits::RangeFacts;
use crate::part::Part;
use crate::precondition::{Precondition, evaluate, is_get_or_head};
use crate::resource::TargetState;
use crate::selection::{Selection, select};
use http::StatusCode;
use rfc_fields::RequestHead;
use std::alloc::{AllocError, Global};

/// What the response to a request for a representation has: its status, and which parts are sent.
#[derive(Debug, Drop)]
pub enum Plan {
    /// 200, with all of the representation.
    Full,
    /// 206, with this part.
    Single(Part),
    /// 206, with these parts as `multipart/byteranges`. They are at least two, in order, and no two
    /// overlap or are close to each other.
    Multiple(Vec<Part>),
    /// 304, without content.
    NotModified,
    /// 412: a precondition is false.
    Failed,
    /// 416: no requested byte exists.
    Unsatisfiable,
}

impl Plan {
    /// Returns the status of the response.
    pub fn status(&self) -> StatusCode
        ensures { result ≡ status_of self.now }
    {
        match self {
            Plan::Full => StatusCode::OK,
            Plan::Single(_) | Plan::Multiple(_) => StatusCode::PARTIAL_CONTENT,
            Plan::NotModified => StatusCode::NOT_MODIFIED,
            Plan::Failed => StatusCode::PRECONDITION_FAILED,
            Plan::Unsatisfiable => StatusCode::RANGE_NOT_SATISFIABLE,
        }
    }
}

/// Decides the response to a request by its preconditions and its ranges (RFC 9110, sections 13.2.2
/// and 14.2).
///
/// `Ok(None)` if the preconditions let a request pass that isn't a GET or a HEAD of a current
/// representation: the server performs its method, and answers as it does without preconditions.
/// The call can run out of memory only if Range asks for some byte.
pub fn plan_answer(
    alloc: Global,
    request: &RequestHead<'_>,
    resource: &TargetState,
    facts: &RangeFacts,
) -> Result<Option<Plan>, AllocError>
    ensures plan { IfOk result (IsPlanned facts.now.present request.now.method.now (lines_at request.now.fields.now)
        resource.now facts.now.len facts.now.limits) }
    ensures memory { OnErr result (ReadsSome facts.now.present request.now.method.now
        (lines_at request.now.fields.now) resource.now facts.now.len facts.now.limits) }
{
    match evaluate(request, resource, facts.present) {
        Precondition::Failed => Ok(Some(Plan::Failed)),
        Precondition::NotModified => Ok(Some(Plan::NotModified)),
        Precondition::Perform => match resource {
            TargetState::Current(current) if is_get_or_head(request.method) => {
                let selection = select(alloc, request, current, facts)?;
                Ok(Some(sent_as(selection)))
            }
            _ => Ok(None),
        },
    }
}

// How a selection is sent.
fn sent_as(selection: Selection) -> Plan
    ensures { IsSentAs selection result }
{
    match selection {
        Selection::Whole => Plan::Full,
        Selection::Unsatisfiable => Plan::Unsatisfiable,
        Selection::Parts(parts) => match parts.as_slice() {
            [part] => Plan::Single(*part),
            _ => Plan::Multiple(parts),
        },
    }
}
