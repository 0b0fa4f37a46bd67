//! The response to a GET that asks for all of a file, of a site that negotiates nothing. It is what
//! `decide_resource` answers, made at once.
ghost use Rattle.std.specs.Prelude.{◌≡◌, ◌++◌, ◌∷◌, [], false, IfSome, IsTrue, None, OnOk, Some, codes};
ghost use Rattle.std.specs.Prelude.{option_copied};
ghost use Rattle.headers.{specs.Date.fixdate, specs.LineMap.lines_at};
ghost use Rattle.http_header.specs.FieldValue.{FieldValue};
ghost use Rattle.decide_preconditions.specs.Fields.{lines_sent, not_after};
ghost use Rattle.decide_preconditions.specs.declared.plan.Plan.TheVariants.{Full};
ghost use Rattle.decide_resource.{specs.Applies.rule_for, specs.Fields.lines_of_value, specs.Requests.request_of};
ghost use Rattle.decide_resource.specs.declared.answer.Sends.TheVariants.{Planned};
ghost use Rattle.server_service.specs.Answer.{AsksForAll, Carries};
ghost use Rattle.server_service.specs.File.{coding_value, tag_of};
ghost use Rattle.server_service.specs.Response.{fields_of, headers_of, lines_under};
ghost use Rattle.server_service.specs.Whole.{GetsWhole, IsPlainGet, IsPlainSite, whole_fields};

use crate::cache::put_cache_control;
use crate::fields::{add_field, trim_values};
use crate::file::File;
use crate::found::Found;
use crate::representation::coding_value;
use crate::settings::Site;
use crate::source::Source;
use decide_preconditions::Plan;
use decide_resource::{MethodRule, Resource, ResourceRequest, Sends, State};
use gateway_messages::{has_host, has_known_expectation};
use headers::{ETag, HeaderMap, HeaderName, HeaderValue, LastModified, encoding};
use headers_syntax::Date1;
use http::{Method, StatusCode};
use http_header::{
    ACCEPT_RANGES, CONTENT_ENCODING, CONTENT_LENGTH, CONTENT_TYPE, IF_MATCH, IF_MODIFIED_SINCE,
    IF_NONE_MATCH, IF_UNMODIFIED_SINCE, LAST_MODIFIED, RANGE,
};
use rfc_fields::has_line;
use server_connection::{OpenRange, Piece, ResponsePlan as Response};
use server_files::Coding;
use std::alloc::{AllocError, Global};

fn is_absent(fields: &HeaderMap, name: HeaderName) -> bool
    ensures { IsTrue result → lines_at fields.now name ≡ [] }
{
    !has_line(&fields.get_all(name))
}

// Whether a request makes no condition, and asks for no range.
fn asks_for_all(fields: &HeaderMap) -> bool
    ensures { IsTrue result → AsksForAll false (lines_at fields.now) }
{
    is_absent(fields, IF_MATCH)
        && is_absent(fields, IF_NONE_MATCH)
        && is_absent(fields, IF_MODIFIED_SINCE)
        && is_absent(fields, IF_UNMODIFIED_SINCE)
        && is_absent(fields, RANGE)
}

fn is_plain_get(request: &ResourceRequest<'_>) -> bool
    ensures { IsTrue result → IsPlainGet (request_of request.now) }
{
    *request.method == Method::GET
        && has_host(request.protocol, request.fields)
        && has_known_expectation(request.fields)
        && asks_for_all(request.fields)
}

#[tactic(auto, unfolding(decide_resource::specs::Applies::rule_for))]
fn get_rule(rules: &[MethodRule]) -> Option<&MethodRule>
    ensures { option_copied result ≡ rule_for rules.now (codes "GET") }
{
    rules.iter().find(|rule| rule.method.as_str() == "GET")
}

fn is_plain_site(resource: &Resource) -> bool
    ensures { IsTrue result → IsPlainSite resource.now }
{
    let negotiation = resource.negotiation;
    resource.hosts.is_none()
        && resource.cors.is_none()
        && !negotiation.media_type
        && !negotiation.language
        && !negotiation.coding
        && !negotiation.is_strict
        && get_rule(&resource.rules).is_some()
}

/// The file that was found, if a request gets all of it. `None` is always right: then `decide_resource` answers.
pub(crate) fn whole_file<'f>(
    resource: &Resource,
    request: &ResourceRequest<'_>,
    found: &'f Found,
) -> Option<&'f File>
    ensures { IfSome result (λ file. GetsWhole resource.now (request_of request.now) found.now file.now) }
{
    match found.files.as_slice() {
        [file] => {
            if matches!(found.state, State::Current)
                && is_plain_site(resource)
                && is_plain_get(request)
            {
                Some(file)
            } else {
                None
            }
        }
        _ => None,
    }
}

/// What the decision sends of a whole file.
pub(crate) fn all_sent() -> Sends
    ensures { result ≡ Planned (Some 0) Full }
{
    Sends::Planned(Some(0), Plan::Full)
}

fn put_coding(coding: Coding, response: &mut Response) -> Result<(), AllocError>
    ensures headers { OnOk result (fields_of response.new ≡ fields_of response.old
        ++ lines_under (codes "content-encoding", lines_of_value (coding_value coding))) }
    ensures pieces { response.new.pieces.items ≡ response.old.pieces.items }
{
    match coding_value(coding) {
        Some(value) => response.add_header(CONTENT_ENCODING, value),
        None => Ok(()),
    }
}

fn tag_of(source: &Source) -> Option<&ETag>
    ensures { option_copied result ≡ tag_of source.now }
{
    match source {
        Source::Kept(kept) => Some(kept.tag()),
        Source::Opened(opened) => opened.tag.as_ref(),
    }
}

fn put_tag(alloc: Global, source: &Source, response: &mut Response) -> Result<(), AllocError>
    ensures headers { OnOk result (fields_of response.new ≡ fields_of response.old
        ++ lines_under (codes "etag", lines_sent (λ (tag : FieldValue). tag.bytes) (tag_of source.now))) }
    ensures pieces { response.new.pieces.items ≡ response.old.pieces.items }
{
    match tag_of(source) {
        Some(tag) => {
            let field = encoding(alloc, tag)?;
            add_field(response, field)
        }
        None => Ok(()),
    }
}

// Adds the date of a modification, which isn't later than the response.
fn put_modified(
    alloc: Global,
    present: u64,
    modified: Option<LastModified>,
    response: &mut Response,
) -> Result<(), AllocError>
    ensures headers { OnOk result (fields_of response.new ≡ fields_of response.old
        ++ lines_under (codes "last-modified", lines_sent fixdate (not_after present modified))) }
    ensures pieces { response.new.pieces.items ≡ response.old.pieces.items }
{
    match modified {
        Some(modified) => {
            let date = Date1::from_unix_secs(present.min(modified.unix_secs()));
            response.add_header(LAST_MODIFIED, date.to_value(alloc)?)
        }
        None => Ok(()),
    }
}

// Adds the fields of the answer.
fn put_fields(
    alloc: Global,
    present: u64,
    file: &File,
    response: &mut Response,
) -> Result<(), AllocError>
    ensures headers { OnOk result (fields_of response.new
        ≡ fields_of response.old ++ headers_of (whole_fields present file.now)) }
    ensures pieces { response.new.pieces.items ≡ response.old.pieces.items }
{
    put_coding(file.coding, response)?;
    put_tag(alloc, &file.source, response)?;
    put_modified(alloc, present, file.modified, response)?;
    response.add_header(ACCEPT_RANGES, HeaderValue::from_static("bytes"))?;
    let length = HeaderValue::from_u64(alloc, file.source.len())?;
    response.add_header(CONTENT_LENGTH, length)?;
    let media_type = file.media_type.clone()?;
    response.add_header(CONTENT_TYPE, media_type)?;
    Ok(())
}

/// Fills a response with all of a file.
pub(crate) fn carry_whole(
    alloc: Global,
    site: &Site,
    present: u64,
    file: &File,
    response: &mut Response,
) -> Result<(), AllocError>
    requires blank { response.old.pieces.items ≡ [] }
    requires cors { site.now.resource.cors ≡ None }
    ensures { OnOk result (Carries (fields_of response.old) site.now (file.now ∷ []) 200 (Planned (Some 0) Full)
        (whole_fields present file.now) response.new) }
{
    put_cache_control(&site.cache_control, &all_sent(), response)?;
    put_fields(alloc, present, file, response)?;
    let len = file.source.len();
    response.push(Piece::Range(OpenRange { start: 0, len }))?;
    trim_values(alloc, response)?;
    // The proof needs that the tag is a field value, and that the length fits in 64 bits.
    file.source.show_tag();
    let _len = response.len;
    response.status = StatusCode::OK;
    Ok(())
}
