//! Preconditions (RFC 9110, section 13).
ghost use Rattle.std.specs.{Prelude.{◌≡◌, ◌⊎◌}, Bool.MatchBool};
ghost use Rattle.headers.specs.{LineMap.lines_at, Lines.lines_of};
ghost use Rattle.decide_preconditions.specs.Conditions.{date_in, modified_of, ModifiedSinceIsFalse, ModifiedSinceLets};
ghost use Rattle.decide_preconditions.specs.Conditions.{UnmodifiedSinceIsFalse, UnmodifiedSinceLets};
ghost use Rattle.decide_preconditions.specs.Preconditions.{Answers, AreIgnored, IsGetOrHead, IsRead, IsStoredByDate};
ghost use Rattle.decide_preconditions.specs.Preconditions.{IsStoredByTag, IsUnconditional, MayBeThere, ReadsMissing};
ghost use Rattle.decide_preconditions.specs.Preconditions.{StateIsKept, StateIsLost, StepsAnswer};

use crate::resource::TargetState;
use crate::tags::{Comparison, may_name, names, only_text};
use headers::{HeaderMap, HeaderValue};
use http::Method;
use http_header::{GetAll, IF_MATCH, IF_MODIFIED_SINCE, IF_NONE_MATCH, IF_UNMODIFIED_SINCE};
use rfc_fields::{RequestHead, has_line};
use rfc_values::{Timestamp, read_date};

/// The result of the preconditions of a request.
#[derive(Clone, Copy, Debug, PartialEq, Eq)]
pub enum Precondition {
    /// The server performs the method. For a GET, `select` says which part is sent.
    Perform,
    /// The response is 304: the client's stored representation is still current.
    NotModified,
    /// The response is 412: a precondition is false.
    Failed,
}

/// Evaluates the preconditions of a request, in their order of precedence (RFC 9110, section
/// 13.2.2). A server calls this when it knows that it would otherwise respond with success, and
/// before it performs the method (section 13.2.1). `present` is the time, in seconds since 1970,
/// which decides a year of two digits (section 5.6.7). The call never fails.
///
/// Some fields are ignored: those that the method doesn't use, invalid dates, dates of a resource
/// without modification date, and all four fields for CONNECT, OPTIONS and TRACE, and for a GET or
/// HEAD of a resource without representation, which is answered by 404. A malformed
/// If-Match is false. A malformed If-None-Match is true for GET and HEAD, so the representation is
/// sent; for other methods it is false if there is a representation.
pub fn evaluate(request: &RequestHead<'_>, resource: &TargetState, present: u64) -> Precondition
    ensures { Answers present (lines_at request.now.fields.now) resource.now request.now.method.now result }
{
    if are_ignored(request.method, resource) {
        return Precondition::Perform;
    }
    evaluate_steps(request, resource, present)
}

// Whether preconditions don't count for a method of a resource.
fn are_ignored(method: &Method, resource: &TargetState) -> bool
    ensures { MatchBool result (AreIgnored resource.now method.now) (¬ (AreIgnored resource.now method.now)) }
{
    is_unconditional(method) || reads_missing(method, resource)
}

// Whether a method reads what is missing.
fn reads_missing(method: &Method, resource: &TargetState) -> bool
    ensures { MatchBool result (ReadsMissing resource.now method.now) (¬ (ReadsMissing resource.now method.now)) }
{
    match resource {
        TargetState::Missing => is_get_or_head(method),
        TargetState::Current(_) => false,
    }
}

// Whether a method selects and modifies no representation.
fn is_unconditional(method: &Method) -> bool
    ensures { MatchBool result (IsUnconditional method.now) (¬ (IsUnconditional method.now)) }
{
    *method == Method::CONNECT || *method == Method::OPTIONS || *method == Method::TRACE
}

// What the steps come to.
fn evaluate_steps(request: &RequestHead<'_>, resource: &TargetState, present: u64) -> Precondition
    ensures { StepsAnswer present (lines_at request.now.fields.now) resource.now request.now.method.now result }
{
    if !is_state_kept(request.fields, resource, present) {
        return Precondition::Failed;
    }
    if is_get_or_head(request.method) {
        if is_stored(request.fields, resource, present) {
            return Precondition::NotModified;
        }
        return Precondition::Perform;
    }
    if may_be_there(request.fields, resource) {
        return Precondition::Failed;
    }
    Precondition::Perform
}

/// Returns whether the method is GET or HEAD, which read the representation (RFC 9110, sections
/// 9.3.1 and 9.3.2).
pub fn is_get_or_head(method: &Method) -> bool
    ensures { MatchBool result (IsGetOrHead method.now) (¬ (IsGetOrHead method.now)) }
{
    *method == Method::GET || *method == Method::HEAD
}

// Steps 1 and 2: whether the state that the client knows is there.
fn is_state_kept(request: &HeaderMap, resource: &TargetState, present: u64) -> bool
    ensures { MatchBool result (StateIsKept present (lines_at request.now) resource.now)
        (StateIsLost present (lines_at request.now) resource.now) }
{
    let field = request.get_all(IF_MATCH);
    if has_line(&field) {
        return names(Comparison::Strong, &field, resource);
    }
    is_unmodified_since(request, resource, present)
}

// Steps 3 and 4 of GET and HEAD: whether the client's stored representation is still current.
fn is_stored(request: &HeaderMap, resource: &TargetState, present: u64) -> bool
    ensures { MatchBool result
        (IsStoredByTag (lines_at request.now) resource.now ⊎ IsStoredByDate present (lines_at request.now) resource.now)
        (IsRead present (lines_at request.now) resource.now) }
{
    let field = request.get_all(IF_NONE_MATCH);
    if has_line(&field) {
        return names(Comparison::Weak, &field, resource);
    }
    !is_modified_since(request, resource, present)
}

// Step 3 of other methods: whether there is, or may be, the representation that they exclude.
fn may_be_there(request: &HeaderMap, resource: &TargetState) -> bool
    ensures { MatchBool result (MayBeThere (lines_at request.now) resource.now)
        (¬ (MayBeThere (lines_at request.now) resource.now)) }
{
    let field = request.get_all(IF_NONE_MATCH);
    has_line(&field) && may_name(Comparison::Weak, &field, resource)
}

// When the current representation was last modified.
fn modified_of(resource: &TargetState) -> Option<u64>
    ensures { result ≡ modified_of resource.now }
{
    match resource {
        TargetState::Missing => None,
        TargetState::Current(validators) => Some(validators.last_modified?.unix_secs()),
    }
}

// The date of a field, if it is one.
fn date_in(field: &GetAll<'_, HeaderValue>, present: u64) -> Option<Timestamp>
    ensures { result ≡ date_in present (lines_of field.now) }
{
    read_date(only_text(field)?, present)
}

// Whether If-Modified-Since is true, or doesn't count.
fn is_modified_since(request: &HeaderMap, resource: &TargetState, present: u64) -> bool
    ensures { MatchBool result (ModifiedSinceLets present (lines_at request.now) resource.now)
        (ModifiedSinceIsFalse present (lines_at request.now) resource.now) }
{
    let field = request.get_all(IF_MODIFIED_SINCE);
    match date_in(&field, present).zip(modified_of(resource)) {
        Some((since, modified)) => since.is_before(modified),
        None => true,
    }
}

// Whether If-Unmodified-Since is true, or doesn't count.
fn is_unmodified_since(request: &HeaderMap, resource: &TargetState, present: u64) -> bool
    ensures { MatchBool result (UnmodifiedSinceLets present (lines_at request.now) resource.now)
        (UnmodifiedSinceIsFalse present (lines_at request.now) resource.now) }
{
    let field = request.get_all(IF_UNMODIFIED_SINCE);
    match date_in(&field, present).zip(modified_of(resource)) {
        Some((since, modified)) => !since.is_before(modified),
        None => true,
    }
}
