//! The content of a request, and its preconditions.
ghost use Rattle.std.specs.{Prelude.{◌≡◌, ◌&&◌, codes, false, nat_lt, not, option_copied}, List.list_all};
ghost use Rattle.std.specs.{Option.option_map_or, Prelude.option_and_then};
ghost use Rattle.headers.specs.LineMap.{lines_at};
ghost use Rattle.decide_preconditions.specs.{Conditions.date_in, Tags.is_star};
ghost use Rattle.decide_resource.specs.Applies.{date_selected, exceeds, has_content, is_dated};
ghost use Rattle.decide_resource.specs.Applies.{is_guarded, is_preflight_request, is_present, is_unsized};
ghost use Rattle.decide_resource.specs.Applies.{is_unsupported_part, names_current, needs_condition, takes_coding};
ghost use Rattle.decide_resource.specs.Applies.{takes_codings, takes_parts, takes_type, type_named};

use crate::chosen::{at_place, selected};
use crate::representation::Representation;
use crate::request::RequestContent;
use crate::resource::{MethodRule, Resource};
use decide_negotiation::{Accept, AcceptEncoding, quality};
use headers::{HeaderMap, HeaderName, HeaderValue, trim};
use http_header::{
    ACCEPT_ENCODING, ACCESS_CONTROL_REQUEST_METHOD, CONTENT_ENCODING, CONTENT_RANGE, CONTENT_TYPE,
    IF_MATCH, IF_NONE_MATCH, IF_UNMODIFIED_SINCE, ORIGIN,
};
use rfc_fields::only_value;
use rfc_values::{Timestamp, read_date};

pub(crate) fn is_unsized(content: RequestContent) -> bool
    ensures { result ≡ is_unsized content }
{
    matches!(content, RequestContent::Unsized)
}

pub(crate) fn exceeds(limit: Option<u64>, content: RequestContent) -> bool
    ensures { result ≡ exceeds limit content }
{
    match (limit, content) {
        (Some(limit), RequestContent::Sized(len)) => limit < len,
        _ => false,
    }
}

fn has_content(content: RequestContent) -> bool
    ensures { result ≡ has_content content }
{
    match content {
        RequestContent::Absent => false,
        RequestContent::Sized(len) => len > 0,
        RequestContent::Unsized => true,
    }
}

// Content-Type, or a type of any bytes without it.
fn type_named(fields: &HeaderMap) -> &[u8]
    ensures { result.now ≡ type_named (lines_at fields.now (codes "content-type")) }
{
    let mut lines = fields.get_all(CONTENT_TYPE).iter();
    match lines.next() {
        None => b"application/octet-stream",
        Some(line) => match lines.next() {
            None => line.as_bytes(),
            Some(_) => b"",
        },
    }
}

#[tactic(auto, unfolding(crate::specs::Applies::takes_type))]
fn takes_type(rule: &MethodRule, fields: &HeaderMap) -> bool
    ensures { result ≡ takes_type rule.now (lines_at fields.now) }
{
    quality::<Accept>(&rule.takes, type_named(fields)).rank() > 0
}

fn is_present(fields: &HeaderMap, name: HeaderName) -> bool
    ensures { result ≡ is_present (lines_at fields.now name) }
{
    fields.get_all(name).iter().next().is_some()
}

#[tactic(auto, unfolding(crate::specs::Applies::takes_codings))]
fn takes_codings(takes: &HeaderMap, line: &HeaderValue) -> bool
    ensures { result ≡ takes_codings (lines_at takes.now (codes "accept-encoding")) line.now.bytes }
{
    if is_present(takes, ACCEPT_ENCODING) {
        return quality::<AcceptEncoding>(takes, line.as_bytes()).rank() > 0;
    }
    line.as_bytes().eq_ignore_ascii_case(b"identity")
}

fn takes_coding(rule: &MethodRule, fields: &HeaderMap) -> bool
    ensures { result ≡ takes_coding rule.now (lines_at fields.now) }
{
    for line in fields.get_all(CONTENT_ENCODING) {
        if !takes_codings(&rule.takes, line) {
            return false;
        }
    }
    true
}

// Whether there is content of a media type that the method doesn't take.
pub(crate) fn is_unsupported_type(
    content: RequestContent,
    rule: Option<&MethodRule>,
    fields: &HeaderMap,
) -> bool
    ensures { result ≡ (has_content content
        && option_map_or (λ r. not (takes_type r (lines_at fields.now))) (option_copied rule.entry) false) }
{
    match rule {
        Some(rule) => has_content(content) && !takes_type(rule, fields),
        None => false,
    }
}

// Whether there is content in a coding that the method doesn't take.
pub(crate) fn is_unsupported_coding(
    content: RequestContent,
    rule: Option<&MethodRule>,
    fields: &HeaderMap,
) -> bool
    ensures { result ≡ (has_content content
        && option_map_or (λ r. not (takes_coding r (lines_at fields.now))) (option_copied rule.entry) false) }
{
    match rule {
        Some(rule) => has_content(content) && !takes_coding(rule, fields),
        None => false,
    }
}

fn takes_parts(rule: Option<&MethodRule>) -> bool
    ensures { result ≡ takes_parts (option_copied rule.entry) }
{
    match rule {
        Some(rule) => rule.takes_parts,
        None => false,
    }
}

/// Whether a request is a preflight.
pub(crate) fn is_preflight_request(method: &str, fields: &HeaderMap) -> bool
    ensures { result ≡ is_preflight_request method.now (lines_at fields.now) }
{
    method == "OPTIONS"
        && is_present(fields, ORIGIN)
        && is_present(fields, ACCESS_CONTROL_REQUEST_METHOD)
}

/// Whether a PUT has a part as its content, where this is the rule for the method, which takes none.
pub(crate) fn is_unsupported_part(
    rule: Option<&MethodRule>,
    method: &str,
    fields: &HeaderMap,
) -> bool
    ensures { result ≡ is_unsupported_part (option_copied rule.entry) method.now
        (lines_at fields.now (codes "content-range")) }
{
    method == "PUT" && is_present(fields, CONTENT_RANGE) && !takes_parts(rule)
}

// Whether a field is `*` alone.
fn is_star(fields: &HeaderMap, name: HeaderName) -> bool
    ensures { result ≡ is_star (lines_at fields.now name) }
{
    match only_value(&fields.get_all(name)) {
        Some(value) => value.as_bytes() == b"*".as_slice(),
        None => false,
    }
}

// When a representation was last modified, if that is known.
fn date_of(representation: Option<&Representation>) -> Option<u64>
    ensures { result ≡ option_and_then (λ r. r.validators.last_modified) (option_copied representation.entry) }
{
    Some(representation?.validators.last_modified?.unix_secs())
}

// The date of the representation that a request selects.
#[tactic(auto, using(crate::proofs::ChosenLemmas::date_at))]
fn date_selected(resource: &Resource, fields: &HeaderMap) -> Option<u64>
    ensures { result ≡ date_selected resource.now (lines_at fields.now) }
{
    let place = selected(resource, fields);
    date_of(at_place(&resource.representations, place))
}

// The date of If-Unmodified-Since, if it is one.
fn date_in(fields: &HeaderMap, present: u64) -> Option<Timestamp>
    ensures { result ≡ date_in present (lines_at fields.now (codes "if-unmodified-since")) }
{
    let field = fields.get_all(IF_UNMODIFIED_SINCE);
    read_date(trim(only_value(&field)?.as_bytes()), present)
}

// Whether If-Unmodified-Since is a date that isn't later than this one.
fn is_dated(fields: &HeaderMap, present: u64, modified: Option<u64>) -> bool
    ensures { result ≡ is_dated present (lines_at fields.now (codes "if-unmodified-since")) modified }
{
    match date_in(fields, present).zip(modified) {
        Some((date, modified)) => !date.is_after(modified),
        None => false,
    }
}

// Whether a request names the representation that it may replace.
fn names_current(resource: &Resource, fields: &HeaderMap, present: u64) -> bool
    ensures { result ≡ names_current present resource.now (lines_at fields.now) }
{
    if is_present(fields, IF_MATCH) {
        return !is_star(fields, IF_MATCH);
    }
    resource.has_strong_dates && is_dated(fields, present, date_selected(resource, fields))
}

// Whether a request names what it may replace.
fn is_guarded(resource: &Resource, fields: &HeaderMap, present: u64) -> bool
    ensures { result ≡ is_guarded present resource.now (lines_at fields.now) }
{
    names_current(resource, fields, present) || is_star(fields, IF_NONE_MATCH)
}

fn needs_condition(rule: Option<&MethodRule>) -> bool
    ensures { result ≡ needs_condition (option_copied rule.entry) }
{
    match rule {
        Some(rule) => rule.needs_condition,
        None => false,
    }
}

/// Whether a request must name what it may replace, and doesn't.
pub(crate) fn lacks_condition(
    resource: &Resource,
    rule: Option<&MethodRule>,
    fields: &HeaderMap,
    present: u64,
) -> bool
    ensures { result ≡ (needs_condition (option_copied rule.entry)
        && not (is_guarded present resource.now (lines_at fields.now))) }
{
    needs_condition(rule) && !is_guarded(resource, fields, present)
}
