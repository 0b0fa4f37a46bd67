//! Which reason decides.
ghost use Rattle.std.specs.Prelude.{◌≡◌, find, option_copied};
ghost use Rattle.decide_resource.specs.Applies.{applies, applies_by};
ghost use Rattle.decide_resource.specs.{Applies.{is_unacceptable, rule}, Reasons.IsFirst, Requests.request_of};

use crate::content::{
    exceeds, is_preflight_request, is_unsized, is_unsupported_coding, is_unsupported_part,
    is_unsupported_type, lacks_condition,
};
use crate::reason::Reason;
use crate::representation::are_unacceptable;
use crate::request::ResourceRequest;
use crate::resource::{MethodRule, Resource};
use crate::target::{
    has_method_by, has_moved, is_current, is_gone, is_implemented, is_misdirected, is_missing,
    is_options, is_read, rule_for,
};
use gateway_messages::{has_host, has_known_expectation};

#[tactic(auto, unfolding(crate::specs::Applies::is_unacceptable))]
fn is_unacceptable(resource: &Resource, request: &ResourceRequest<'_>) -> bool
    ensures { result ≡ is_unacceptable resource.now (request_of request.now) }
{
    is_read(request.method.as_str())
        && is_current(&resource.state)
        && resource.negotiation.is_strict
        && !resource.representations.is_empty()
        && are_unacceptable(
            &resource.negotiation,
            request.fields,
            &resource.representations,
        )
}

// The rule for the method of a request, if the resource has one.
fn rule_of<'a>(resource: &'a Resource, request: &ResourceRequest<'_>) -> Option<&'a MethodRule>
    ensures { option_copied result ≡ rule resource.now (request_of request.now) }
{
    rule_for(&resource.rules, request.method.as_str())
}

// Whether a reason applies, where this is the rule for the method.
fn applies_by(
    resource: &Resource,
    request: &ResourceRequest<'_>,
    present: u64,
    rule: Option<&MethodRule>,
    reason: Reason,
) -> bool
    ensures { result ≡ applies_by present resource.now (request_of request.now) (option_copied rule.entry) reason }
{
    let (method, content, fields) = (request.method, request.content, request.fields);
    match reason {
        Reason::InvalidHost => !has_host(request.protocol, fields),
        Reason::Misdirected => is_misdirected(resource, request),
        Reason::Preflight => resource.cors.is_some()
            && is_preflight_request(method.as_str(), fields),
        Reason::Denied => request.denied.is_some(),
        Reason::UnknownMethod => {
            let name = method.as_str();
            !(is_implemented(&resource.implemented, name) || has_method_by(rule, name))
        }
        Reason::MethodNotAllowed => !has_method_by(rule, method.as_str()),
        Reason::UnmetExpectation => !has_known_expectation(fields),
        Reason::PartialContent => is_unsupported_part(rule, method.as_str(), fields),
        Reason::Moved => has_moved(&resource.state),
        Reason::Gone => is_gone(&resource.state),
        Reason::NotFound => is_missing(resource, rule, method.as_str()),
        Reason::Options => is_options(method.as_str()),
        Reason::LengthRequired => resource.needs_length && is_unsized(content),
        Reason::ContentTooLarge => exceeds(resource.limit, content),
        Reason::UnsupportedMediaType => is_unsupported_type(content, rule, fields),
        Reason::UnsupportedCoding => is_unsupported_coding(content, rule, fields),
        Reason::NotAcceptable => is_unacceptable(resource, request),
        Reason::PreconditionRequired => {
            !is_read(method.as_str()) && lacks_condition(resource, rule, fields, present)
        }
        Reason::Admitted => true,
    }
}

// The first of some reasons that applies, where this is the rule for the method.
fn first_of(
    resource: &Resource,
    request: &ResourceRequest<'_>,
    present: u64,
    rule: Option<&MethodRule>,
    reasons: &[Reason],
) -> Option<Reason>
    ensures { result
        ≡ find (applies_by present resource.now (request_of request.now) (option_copied rule.entry)) reasons.now }
{
    reasons.iter().copied().find(|reason| applies_by(resource, request, present, rule, *reason))
}

/// Why a request is answered as it is. `present` is the time, in seconds since 1970.
pub(crate) fn reason_for(resource: &Resource, request: &ResourceRequest<'_>, present: u64) -> Reason
    ensures { IsFirst (applies present resource.now (request_of request.now)) result }
{
    let in_order = [
        Reason::InvalidHost,
        Reason::Misdirected,
        Reason::Preflight,
        Reason::Denied,
        Reason::UnknownMethod,
        Reason::MethodNotAllowed,
        Reason::UnmetExpectation,
        Reason::PartialContent,
        Reason::Moved,
        Reason::Gone,
        Reason::NotFound,
        Reason::Options,
        Reason::LengthRequired,
        Reason::ContentTooLarge,
        Reason::UnsupportedMediaType,
        Reason::UnsupportedCoding,
        Reason::NotAcceptable,
        Reason::PreconditionRequired,
    ];
    let rule = rule_of(resource, request);
    match first_of(resource, request, present, rule, &in_order) {
        Some(reason) => reason,
        None => Reason::Admitted,
    }
}
