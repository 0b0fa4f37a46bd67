//! The fields that a reason or a representation gives an answer.
ghost use Rattle.std.specs.Prelude.{◌≡◌, [], ◌++◌, ◌∷◌, IfOk, OnOk, codes, option_copied, option_map, length};
ghost use Rattle.std.specs.Option.{option_map_or};
ghost use Rattle.http_header.specs.HeaderMap.{get_all};
ghost use Rattle.headers.specs.LineMap.{field_of};
ghost use Rattle.headers.specs.{LineMap.{fields_of, lines_at}, Lines.lines_of};
ghost use Rattle.decide_resource.specs.{Answers.sent_for, Applies.rule, Fields.{accept_encoding_fields, accept_fields}};
ghost use Rattle.decide_resource.specs.Fields.{allow_field, lines_of_value, codings_told, describes, location_fields};
ghost use Rattle.decide_resource.specs.Fields.{metadata_fields, moved_status, reason_fields, offered_fields};
ghost use Rattle.decide_resource.specs.{Fields.{redirect_status, status_of, types_fields}, Requests.request_of};

use crate::allow::allow_field;
use crate::answer::Sends;
use crate::denied::{Denied, denied_status, push_denied};
use crate::reason::Reason;
use crate::representation::Representation;
use crate::request::ResourceRequest;
use crate::resource::{MethodRule, Redirect, Resource, State};
use crate::target::rule_for;
use decide_preconditions::Plan;
use headers::{Encoded, HeaderMap, HeaderName, HeaderValue};
use http::StatusCode;
use http_header::{ACCEPT, ACCEPT_ENCODING, CONTENT_ENCODING, CONTENT_LANGUAGE, LOCATION};
use std::alloc::{AllocError, Global};

fn redirect_status(redirect: Redirect) -> StatusCode
    ensures { result ≡ redirect_status redirect }
{
    match redirect {
        Redirect::MovedPermanently => StatusCode::MOVED_PERMANENTLY,
        Redirect::Temporary => StatusCode::TEMPORARY_REDIRECT,
        Redirect::Permanent => StatusCode::PERMANENT_REDIRECT,
    }
}

fn moved_status(state: &State) -> StatusCode
    ensures { result ≡ moved_status state.now }
{
    match state {
        State::Moved(redirect, _) => redirect_status(*redirect),
        State::Current | State::Absent | State::Gone | State::Server => StatusCode::OK,
    }
}

/// The status of a reason.
pub(crate) fn status_of(state: &State, denied: Option<&Denied>, reason: Reason) -> StatusCode
    ensures { result ≡ status_of state.now (option_copied denied.entry) reason }
{
    match reason {
        Reason::InvalidHost => StatusCode::BAD_REQUEST,
        Reason::Misdirected => StatusCode::MISDIRECTED_REQUEST,
        Reason::Preflight => StatusCode::NO_CONTENT,
        Reason::Denied => denied_status(denied),
        Reason::UnknownMethod => StatusCode::NOT_IMPLEMENTED,
        Reason::MethodNotAllowed => StatusCode::METHOD_NOT_ALLOWED,
        Reason::Options => StatusCode::NO_CONTENT,
        Reason::UnmetExpectation => StatusCode::EXPECTATION_FAILED,
        Reason::PartialContent => StatusCode::BAD_REQUEST,
        Reason::Moved => moved_status(state),
        Reason::Gone => StatusCode::GONE,
        Reason::NotFound => StatusCode::NOT_FOUND,
        Reason::LengthRequired => StatusCode::LENGTH_REQUIRED,
        Reason::ContentTooLarge => StatusCode::PAYLOAD_TOO_LARGE,
        Reason::UnsupportedMediaType => StatusCode::UNSUPPORTED_MEDIA_TYPE,
        Reason::UnsupportedCoding => StatusCode::UNSUPPORTED_MEDIA_TYPE,
        Reason::NotAcceptable => StatusCode::NOT_ACCEPTABLE,
        Reason::PreconditionRequired => StatusCode::PRECONDITION_REQUIRED,
        Reason::Admitted => StatusCode::OK,
    }
}

/// What is sent for a reason.
pub(crate) fn sent_for(reason: Reason) -> Sends
    ensures { result ≡ sent_for reason }
{
    match reason {
        Reason::NotAcceptable => Sends::Alternatives,
        _ => Sends::Nothing,
    }
}

// The field lines that a map has under a name.
fn lines_under(
    alloc: Global,
    map: &HeaderMap,
    name: HeaderName,
) -> Result<Vec<HeaderValue>, AllocError>
    ensures { IfOk result (λ lines. lines_of lines.items ≡ lines_at map.now name) }
{
    let mut lines = Vec::new(alloc);
    for line in map.get_all(name) {
        lines.push(line.clone()?)?;
    }
    Ok(lines)
}

fn lines_of_value(
    alloc: Global,
    value: &Option<HeaderValue>,
) -> Result<Vec<HeaderValue>, AllocError>
    ensures { IfOk result (λ lines. lines_of lines.items ≡ lines_of_value value.now) }
{
    let mut lines = Vec::new(alloc);
    if let Some(value) = value {
        lines.push(value.clone()?)?;
    }
    Ok(lines)
}

fn push_location(alloc: Global, fields: &mut Vec<Encoded>, state: &State) -> Result<(), AllocError>
    ensures { OnOk result (fields_of fields.new.items ≡ fields_of fields.old.items ++ location_fields state.now) }
{
    let State::Moved(_, location) = state else {
        return Ok(());
    };
    let mut lines = Vec::new(alloc);
    lines.push(location.clone()?)?;
    Ok(fields.push(Encoded {
        name: LOCATION,
        lines,
    })?)
}

// Appends the field of this name with the media types that a method takes.
fn push_types(
    alloc: Global,
    fields: &mut Vec<Encoded>,
    name: HeaderName,
    rule: Option<&MethodRule>,
) -> Result<(), AllocError>
    ensures { OnOk result (fields_of fields.new.items
        ≡ fields_of fields.old.items ++ types_fields name (option_copied rule.entry)) }
{
    let Some(rule) = rule else {
        return Ok(());
    };
    let lines = lines_under(alloc, &rule.takes, ACCEPT)?;
    Ok(fields.push(Encoded { name, lines })?)
}

fn push_accept(
    alloc: Global,
    fields: &mut Vec<Encoded>,
    method: &str,
    rule: Option<&MethodRule>,
) -> Result<(), AllocError>
    ensures { OnOk result (fields_of fields.new.items
        ≡ fields_of fields.old.items ++ accept_fields method.now (option_copied rule.entry)) }
{
    push_types(alloc, fields, ACCEPT, rule)?;
    if method == "PATCH" {
        push_types(alloc, fields, HeaderName::from_static("accept-patch"), rule)?;
    }
    Ok(())
}

// Appends the fields by which OPTIONS says what content is taken.
fn push_offered(
    alloc: Global,
    fields: &mut Vec<Encoded>,
    rules: &[MethodRule],
) -> Result<(), AllocError>
    ensures { OnOk result (fields_of fields.new.items ≡ fields_of fields.old.items ++ offered_fields rules.now) }
{
    let (patch, post) = (rule_for(rules, "PATCH"), rule_for(rules, "POST"));
    push_types(
        alloc,
        fields,
        HeaderName::from_static("accept-patch"),
        patch,
    )?;
    push_types(alloc, fields, HeaderName::from_static("accept-post"), post)?;
    Ok(())
}

// The field lines of Accept-Encoding: those that a map has, or else `identity`.
fn codings_told(alloc: Global, takes: &HeaderMap) -> Result<Vec<HeaderValue>, AllocError>
    ensures { IfOk result (λ lines. lines_of lines.items
        ≡ codings_told (lines_at takes.now (codes "accept-encoding"))) }
{
    let mut lines = lines_under(alloc, takes, ACCEPT_ENCODING)?;
    if lines.is_empty() {
        lines.push(HeaderValue::from_static("identity"))?;
    }
    Ok(lines)
}

fn push_accept_encoding(
    alloc: Global,
    fields: &mut Vec<Encoded>,
    rule: Option<&MethodRule>,
) -> Result<(), AllocError>
    ensures { OnOk result (fields_of fields.new.items
        ≡ fields_of fields.old.items ++ accept_encoding_fields (option_copied rule.entry)) }
{
    let Some(rule) = rule else {
        return Ok(());
    };
    let lines = codings_told(alloc, &rule.takes)?;
    Ok(fields.push(Encoded {
        name: ACCEPT_ENCODING,
        lines,
    })?)
}

fn push_allow(
    alloc: Global,
    fields: &mut Vec<Encoded>,
    rules: &[MethodRule],
) -> Result<(), AllocError>
    ensures { OnOk result (fields_of fields.new.items ≡ fields_of fields.old.items ++ allow_field rules.now ∷ []) }
{
    let field = allow_field(alloc, rules)?;
    Ok(fields.push(field)?)
}

/// The fields that explain a reason.
pub(crate) fn reason_fields(
    alloc: Global,
    resource: &Resource,
    request: &ResourceRequest<'_>,
    reason: Reason,
) -> Result<Vec<Encoded>, AllocError>
    ensures { IfOk result (λ fields. fields_of fields.items
        ≡ reason_fields resource.now (request_of request.now) reason) }
{
    let method = request.method.as_str();
    let rule = rule_for(&resource.rules, method);
    let mut fields = Vec::new(alloc);
    match reason {
        Reason::Denied => push_denied(alloc, &mut fields, request.denied)?,
        Reason::MethodNotAllowed => push_allow(alloc, &mut fields, &resource.rules)?,
        Reason::Options => {
            push_allow(alloc, &mut fields, &resource.rules)?;
            push_offered(alloc, &mut fields, &resource.rules)?;
        }
        Reason::Moved => push_location(alloc, &mut fields, &resource.state)?,
        Reason::UnsupportedMediaType => push_accept(alloc, &mut fields, method, rule)?,
        Reason::UnsupportedCoding => push_accept_encoding(alloc, &mut fields, rule)?,
        _ => {}
    }
    Ok(fields)
}

// Whether the answer has the header fields of the representation.
fn describes(plan: &Plan, is_known: bool) -> bool
    ensures { result ≡ describes plan.now is_known }
{
    match plan {
        Plan::Full => true,
        Plan::Single(_) | Plan::Multiple(_) => !is_known,
        Plan::NotModified | Plan::Failed | Plan::Unsatisfiable => false,
    }
}

/// The coding and the language of a representation, by what is sent of it.
pub(crate) fn metadata_fields(
    alloc: Global,
    plan: &Plan,
    is_known: bool,
    representation: &Representation,
) -> Result<Vec<Encoded>, AllocError>
    ensures { IfOk result (λ fields. fields_of fields.items
        ≡ metadata_fields (describes plan.now is_known) representation.now) }
{
    // Those that the preconditions and Range give follow.
    let mut fields = Vec::with_capacity(alloc, 12)?;
    if !describes(plan, is_known) {
        fields.push(Encoded {
            name: CONTENT_LANGUAGE,
            lines: Vec::new(alloc),
        })?;
        return Ok(fields);
    }
    let codings = lines_of_value(alloc, &representation.coding)?;
    let languages = lines_of_value(alloc, &representation.language)?;
    fields.push(Encoded {
        name: CONTENT_ENCODING,
        lines: codings,
    })?;
    fields.push(Encoded {
        name: CONTENT_LANGUAGE,
        lines: languages,
    })?;
    Ok(fields)
}
