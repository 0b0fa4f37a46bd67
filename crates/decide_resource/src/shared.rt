//! Vary, and what a policy says to requests from other origins.
ghost use Rattle.std.specs.Prelude.{◌≡◌, ◌++◌, ◌∷◌, [], List, IfOk, OnOk, Some, codes};
ghost use Rattle.headers.{specs.LineMap.{Field, fields_of, lines_at}, specs.Lines.lines_of};
ghost use Rattle.decide_resource.{specs.Answers.IsShared, specs.Fields.{depends_on_selection, line_if, selecting}};
ghost use Rattle.decide_resource.{specs.Fields.{vary_fields, vary_lines}, specs.Requests.request_of};

use crate::reason::Reason;
use crate::representation::Negotiation;
use crate::request::ResourceRequest;
use crate::resource::Resource;
use decide_cors::CorsPolicy;
use decide_negotiation::{Accept, AcceptEncoding, AcceptLanguage, varies_by};
use headers::{Encoded, HeaderMap, HeaderValue};
use http_header::VARY;
use std::alloc::{AllocError, Global};

fn depends_on_selection(reason: Reason) -> bool
    ensures { result ≡ depends_on_selection reason }
{
    matches!(
        reason,
        Reason::NotAcceptable | Reason::PreconditionRequired | Reason::Admitted
    )
}

fn push_if(
    lines: &mut Vec<HeaderValue>,
    condition: bool,
    line: HeaderValue,
) -> Result<(), AllocError>
    ensures { OnOk result (lines_of lines.new.items ≡ lines_of lines.old.items ++ line_if condition line.bytes) }
{
    if condition {
        lines.push(line)?;
    }
    Ok(())
}

fn selecting(alloc: Global, negotiation: &Negotiation) -> Result<Vec<HeaderValue>, AllocError>
    ensures { IfOk result (λ lines. lines_of lines.items ≡ selecting negotiation.now) }
{
    let mut lines = Vec::new(alloc);
    push_if(&mut lines, negotiation.media_type, varies_by::<Accept>())?;
    push_if(
        &mut lines,
        negotiation.language,
        varies_by::<AcceptLanguage>(),
    )?;
    push_if(
        &mut lines,
        negotiation.coding,
        varies_by::<AcceptEncoding>(),
    )?;
    Ok(lines)
}

/// The field lines of Vary.
pub(crate) fn vary_lines(
    alloc: Global,
    resource: &Resource,
    reason: Reason,
) -> Result<Vec<HeaderValue>, AllocError>
    ensures { IfOk result (λ lines. lines_of lines.items ≡ vary_lines resource.now reason) }
{
    if !depends_on_selection(reason) {
        return Ok(Vec::new(alloc));
    }
    selecting(alloc, &resource.negotiation)
}

// Appends a field line of Vary. A map with this name alone is never full.
fn append_vary(response: &mut HeaderMap, line: HeaderValue) -> Result<(), AllocError>
    ensures { OnOk result (lines_at response.new (codes "vary")
        ≡ lines_at response.old (codes "vary") ++ line.bytes ∷ []) }
{
    match response.append(VARY, line) {
        Ok(_) => Ok(()),
        Err(_) => Err(AllocError),
    }
}

// A response with these field lines of Vary.
fn varying(alloc: Global, lines: &[HeaderValue]) -> Result<HeaderMap, AllocError>
    ensures { IfOk result (λ response. lines_at response (codes "vary") ≡ lines_of lines.now) }
{
    let mut response = HeaderMap::new(alloc);
    for line in lines {
        let copy = line.clone()?;
        append_vary(&mut response, copy)?;
    }
    Ok(response)
}

// What a policy says of a response with these field lines of Vary.
fn policy_fields(
    alloc: Global,
    policy: &CorsPolicy,
    request: &ResourceRequest<'_>,
    lines: &[HeaderValue],
) -> Result<Vec<Encoded>, AllocError>
    ensures { IfOk result (λ fields. IsShared (Some policy.now) (request_of request.now) (lines_of lines.now)
        (fields_of fields.items)) }
{
    let response = varying(alloc, lines)?;
    let asked = rfc_fields::RequestHead {
        method: request.method,
        fields: request.fields,
    };
    let answer = policy.answer(alloc, &asked, &response)?;
    Ok(answer.fields)
}

/// What the policy says of a response with these field lines of Vary, if there is one.
pub(crate) fn shared_fields(
    alloc: Global,
    policy: &Option<CorsPolicy>,
    request: &ResourceRequest<'_>,
    lines: &[HeaderValue],
) -> Result<Vec<Encoded>, AllocError>
    ensures { IfOk result (λ fields. IsShared policy.now (request_of request.now) (lines_of lines.now)
        (fields_of fields.items)) }
{
    match policy {
        Some(policy) => policy_fields(alloc, policy, request, lines),
        None => Ok(Vec::new(alloc)),
    }
}

/// Appends Vary with these field lines, if there are any.
pub(crate) fn push_vary(
    fields: &mut Vec<Encoded>,
    lines: Vec<HeaderValue>,
) -> Result<(), AllocError>
    ensures { OnOk result (fields_of fields.new.items
        ≡ fields_of fields.old.items ++ vary_fields (lines_of lines.items)) }
{
    if lines.is_empty() {
        return Ok(());
    }
    Ok(fields.push(Encoded { name: VARY, lines })?)
}
