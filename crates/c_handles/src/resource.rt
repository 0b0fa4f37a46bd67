//! What a resource answers a request.
ghost use Rattle.c_handles.{specs.Handles.{resource_in, section_in}, specs.Resources.AnswersBetween};
ghost use Rattle.c_handles.specs.Views.{IsSame};

use crate::view::{Lent, View};
use c_parts::Failure;
use c_resource::{Answered, DenialParts, RequestParts, answer_with};
use std::alloc::Global;

fn answer_in(
    alloc: Global,
    resource: &Lent,
    fields: &Lent,
    request: &RequestParts<'_>,
    denial: &DenialParts<'_>,
) -> Result<Answered, Failure>
    ensures { AnswersBetween request.now denial.now (resource_in resource.now.loan.held)
        (section_in fields.now.loan.held) result }
{
    let Some(resource) = resource.resource() else {
        return Err(Failure::Absent);
    };
    match fields.section() {
        Some(fields) => answer_with(alloc, resource, request, denial, fields),
        None => Err(Failure::Absent),
    }
}

/// The whole answer of a resource to a request with these fields (RFC 9110, sections 7.4 to 15).
pub fn answer_as_resource(
    alloc: Global,
    resource: &mut View,
    fields: &mut View,
    request: &RequestParts<'_>,
    denial: &DenialParts<'_>,
) -> Result<Answered, Failure>
    ensures same_resource { IsSame resource.old resource.new }
    ensures same_fields { IsSame fields.old fields.new }
    ensures answer { AnswersBetween request.now denial.now (resource_in resource.old.held)
        (section_in fields.old.held) result }
{
    let known = resource.take();
    let parsed = fields.take();
    let answer = answer_in(alloc, &known, &parsed, request, denial);
    resource.put(known);
    fields.put(parsed);
    answer
}
