//! The preconditions of a request.
ghost use Rattle.std.specs.Prelude.{◌≡◌};
ghost use Rattle.c_decisions.specs.Evaluations.{Evaluates, code_of};

use crate::method::read_method;
use crate::request::RequestTexts;
use crate::target::{TargetFacts, read_resource};
use c_parts::{Failure, HashKeys, read_map};
use decide_preconditions::{Precondition, RequestHead, evaluate};
use std::alloc::Global;

/// Evaluates the preconditions of a request (RFC 9110, section 13.2.2): 0 if the method is
/// performed, 304 or 412.
pub fn evaluate_request(
    alloc: Global,
    request: &RequestTexts<'_>,
    keys: &HashKeys,
    target: &TargetFacts<'_>,
) -> Result<u16, Failure>
    ensures { Evaluates request.now target.now result }
{
    let method = read_method(alloc, request.method)?;
    let resource = read_resource(alloc, target)?;
    let fields = read_map(alloc, request.section, keys)?;
    let head = RequestHead {
        method: &method,
        fields: &fields,
    };
    let answer = evaluate(&head, &resource, target.present);
    Ok(code_of(answer))
}

/// The status of an answer: 0 if the method is performed, 304 or 412.
pub fn code_of(answer: Precondition) -> u16
    ensures { result ≡ code_of answer }
{
    match answer {
        Precondition::Perform => 0,
        Precondition::NotModified => 304,
        Precondition::Failed => 412,
    }
}
