//! What a pass comes to, as Cache-Status has it (RFC 9211).
ghost use Rattle.std.specs.Prelude.{◌≡◌, ◌++◌, OnOk, Some, None, decimal, flat_map, if◌then◌else◌, option_map};
ghost use Rattle.{std.specs.List.list_all, cache_policy.specs.Policies.policy_of};
ghost use Rattle.{cache_policy.specs.Requests.request_of};
ghost use Rattle.cache_store.specs.Lookups.{IsFreshFor};
ghost use Rattle.c_pass.specs.Status.{IsReason, IsSelection, IsStanding, IsStatusLine, came_text, collapsed_text};
ghost use Rattle.c_pass.specs.Status.{course_of, course_text, escaped, fresh_text, has_get, is_reply};
ghost use Rattle.c_pass.specs.Status.{is_shown, parameters, quoted, reason_name, seconds_text, stored_text, ttl_text};

use crate::held::{Shared, Stepped};
use c_parts::Failure;
use cache_pass::{First, Pass, Phase};
use cache_policy::{Freshness, Policy, RequestHead, current_age};
use cache_rules::{StoredResponse, select};
use decide_preconditions::is_get_or_head;
use headers::HeaderValue;
use http::Method;
use std::alloc::{AllocError, Global};

/// Why a request is forwarded (RFC 9211, section 2.2).
#[derive(Clone, Copy, Debug, PartialEq, Eq)]
pub enum ForwardReason {
    /// No stored response answers its method.
    Method,
    /// No response is stored under its target.
    Target,
    /// None of those matches it by Vary.
    Vary,
    /// None of those is one to its method.
    Miss,
    /// One is fresh, but the request doesn't accept it.
    Request,
    /// One is stale.
    Stale,
}

/// What becomes of a request.
#[derive(Clone, Copy, Debug, PartialEq, Eq)]
pub enum Course {
    /// A stored response answers it (RFC 9211, section 2.1).
    Hit,
    /// It is forwarded, or waited for another that was (section 2.2).
    Forward(ForwardReason),
    /// Neither: it forbids to ask the origin, and no stored response is good enough.
    Unavailable,
}

/// What a pass comes to.
#[derive(Clone, Copy, Debug)]
pub struct Standing {
    /// What becomes of its request.
    pub course: Course,
    /// The lifetime and the age of the stored response that answers, if one does, in seconds.
    pub freshness: Option<Freshness>,
    /// The status of the origin's response, once it came.
    pub came: Option<u16>,
    /// Whether the response to another request answers it, if it waited for that.
    pub collapsed: Option<bool>,
}

// How many seconds a stored response is fresh, if at most so many are guessed.
fn lifetime_of(policy: &Policy<'_>, stored: &StoredResponse, guess: u64) -> u64
    ensures { IsFreshFor (policy_of policy.now) guess stored.now result }
{
    match policy.lifetime(&stored.response, stored.received) {
        Some(seconds) => seconds,
        None => {
            let guessed = policy.heuristic_lifetime(
                stored.status,
                &stored.response,
                stored.received,
            );
            guessed.unwrap_or(0).min(guess)
        }
    }
}

// How long the stored response that is selected for a request is fresh, and how old it is.
fn selection(
    policy: &Policy<'_>,
    guess: u64,
    request: &RequestHead<'_>,
    now: u64,
    stored: &[StoredResponse],
) -> Option<Freshness>
    ensures { IsSelection (policy_of policy.now) guess (request_of request.now) now stored.now result }
{
    match select(stored, request) {
        Some(place) => {
            let chosen = &stored[place];
            Some(Freshness {
                lifetime: lifetime_of(policy, chosen, guess),
                age: current_age(&chosen.response, chosen.times(now)),
            })
        }
        None => None,
    }
}

// Whether a response to GET is stored.
fn has_get(stored: &[StoredResponse]) -> bool
    ensures { result ≡ has_get stored.now }
{
    stored.iter().any(|it| it.method == Method::GET)
}

// Why a request is forwarded, if it is.
fn reason(method: &Method, stored: &[StoredResponse], selected: Option<Freshness>) -> ForwardReason
    ensures { IsReason method.now stored.now selected result }
{
    if !is_get_or_head(method) {
        return ForwardReason::Method;
    }
    match selected {
        Some(by) => {
            if by.age < by.lifetime {
                ForwardReason::Request
            } else {
                ForwardReason::Stale
            }
        }
        None => {
            if stored.is_empty() {
                ForwardReason::Target
            } else if *method == Method::HEAD || has_get(stored) {
                ForwardReason::Vary
            } else {
                ForwardReason::Miss
            }
        }
    }
}

fn is_reply(first: &First) -> bool
    ensures { result ≡ is_reply first.now }
{
    match first {
        First::Reply(_) | First::ReplyAndValidate(_) => true,
        _ => false,
    }
}

// What becomes of a request.
fn course_of(first: &First, reason: ForwardReason, earlier: Option<Course>) -> Course
    ensures { result ≡ course_of first.now reason earlier }
{
    match first {
        First::Reply(_) | First::ReplyAndValidate(_) => earlier.unwrap_or(Course::Hit),
        First::Ask | First::Validate(_) => Course::Forward(reason),
        First::Unavailable => Course::Unavailable,
    }
}

fn shown_freshness(answers: bool, selected: Option<Freshness>) -> Option<Freshness>
    ensures { result ≡ (if answers then selected else None) }
{
    if answers { selected } else { None }
}

fn collapsed_by(answers: bool, earlier: Option<Course>) -> Option<bool>
    ensures { result ≡ option_map (λ course. answers) earlier }
{
    match earlier {
        Some(_) => Some(answers),
        None => None,
    }
}

/// What a pass comes to by its first step. If it waited for another, `earlier` is what was to become of it when it
/// began.
pub(crate) fn first_standing(
    shared: &Shared,
    pass: &Pass,
    first: &First,
    now: u64,
    earlier: Option<Course>,
) -> Standing
    ensures { IsStanding shared.now.guess now shared.now.cache pass.now first.now earlier result }
{
    let store = shared.cache.store();
    let request = pass.head();
    let stored = store.responses(pass.key());
    let selected = selection(&store.policy(), shared.guess, &request, now, stored);
    let why = reason(request.method, stored, selected);
    let answers = is_reply(first);
    Standing {
        course: course_of(first, why, earlier),
        freshness: shown_freshness(answers, selected),
        came: None,
        collapsed: collapsed_by(answers, earlier),
    }
}

fn reason_name(reason: ForwardReason) -> &'static [u8]
    ensures { result.now ≡ reason_name reason }
{
    match reason {
        ForwardReason::Method => b"method",
        ForwardReason::Target => b"uri-miss",
        ForwardReason::Vary => b"vary-miss",
        ForwardReason::Miss => b"miss",
        ForwardReason::Request => b"request",
        ForwardReason::Stale => b"stale",
    }
}

fn push_course(text: &mut Vec<u8>, course: Course) -> Result<(), AllocError>
    ensures { OnOk result (text.new.items ≡ text.old.items ++ course_text course) }
{
    match course {
        Course::Hit => text.extend_from_slice(b"; hit"),
        Course::Forward(reason) => {
            text.extend_from_slice(b"; fwd=")?;
            text.extend_from_slice(reason_name(reason))
        }
        Course::Unavailable => Ok(()),
    }
}

fn push_number(alloc: Global, text: &mut Vec<u8>, number: u64) -> Result<(), AllocError>
    ensures { OnOk result (text.new.items ≡ text.old.items ++ decimal number) }
{
    let digits = HeaderValue::from_u64(alloc, number)?;
    text.extend_from_slice(digits.as_bytes())
}

fn push_status(alloc: Global, text: &mut Vec<u8>, status: u16) -> Result<(), AllocError>
    ensures { OnOk result (text.new.items ≡ text.old.items ++ came_text (Some status)) }
{
    text.extend_from_slice(b"; fwd-status=")?;
    push_number(alloc, text, status as u64)
}

fn push_came(alloc: Global, text: &mut Vec<u8>, came: Option<u16>) -> Result<(), AllocError>
    ensures { OnOk result (text.new.items ≡ text.old.items ++ came_text came) }
{
    match came {
        Some(status) => push_status(alloc, text, status),
        None => Ok(()),
    }
}

fn push_stored(text: &mut Vec<u8>, phase: &Phase) -> Result<(), AllocError>
    ensures { OnOk result (text.new.items ≡ text.old.items ++ stored_text phase.now) }
{
    match phase {
        Phase::Passing(_, _, _) => text.extend_from_slice(b"; stored"),
        _ => Ok(()),
    }
}

// Appends a number of seconds, of at most 15 digits.
fn push_seconds(alloc: Global, text: &mut Vec<u8>, seconds: u64) -> Result<(), AllocError>
    ensures { OnOk result (text.new.items ≡ text.old.items ++ seconds_text seconds) }
{
    push_number(alloc, text, seconds.min(999_999_999_999_999))
}

fn push_fresh(alloc: Global, text: &mut Vec<u8>, by: Freshness) -> Result<(), AllocError>
    ensures { OnOk result (text.new.items ≡ text.old.items ++ fresh_text by) }
{
    if by.age <= by.lifetime {
        text.extend_from_slice(b"; ttl=")?;
        push_seconds(alloc, text, by.lifetime - by.age)
    } else {
        text.extend_from_slice(b"; ttl=-")?;
        push_seconds(alloc, text, by.age - by.lifetime)
    }
}

fn push_ttl(alloc: Global, text: &mut Vec<u8>, by: Option<Freshness>) -> Result<(), AllocError>
    ensures { OnOk result (text.new.items ≡ text.old.items ++ ttl_text by) }
{
    match by {
        Some(by) => push_fresh(alloc, text, by),
        None => Ok(()),
    }
}

fn push_collapsed(text: &mut Vec<u8>, collapsed: Option<bool>) -> Result<(), AllocError>
    ensures { OnOk result (text.new.items ≡ text.old.items ++ collapsed_text collapsed) }
{
    match collapsed {
        Some(true) => text.extend_from_slice(b"; collapsed"),
        Some(false) => text.extend_from_slice(b"; collapsed=?0"),
        None => Ok(()),
    }
}

fn push_parameters(
    alloc: Global,
    text: &mut Vec<u8>,
    standing: &Standing,
    phase: &Phase,
) -> Result<(), AllocError>
    ensures { OnOk result (text.new.items ≡ text.old.items ++ parameters standing.now phase.now) }
{
    push_course(text, standing.course)?;
    push_came(alloc, text, standing.came)?;
    push_stored(text, phase)?;
    push_ttl(alloc, text, standing.freshness)?;
    push_collapsed(text, standing.collapsed)
}

// Whether all bytes are spaces or visible ASCII.
fn are_shown(name: &[u8]) -> bool
    ensures { result ≡ list_all is_shown name.now }
{
    name.iter().all(|byte| *byte >= b' ' && *byte <= b'~')
}

fn push_byte(text: &mut Vec<u8>, byte: u8) -> Result<(), AllocError>
    ensures { OnOk result (text.new.items ≡ text.old.items ++ escaped byte) }
{
    if byte == b'"' || byte == b'\\' {
        text.push(b'\\')?;
    }
    text.push(byte)?;
    Ok(())
}

fn push_escaped(text: &mut Vec<u8>, name: &[u8]) -> Result<(), AllocError>
    ensures { OnOk result (text.new.items ≡ text.old.items ++ flat_map escaped name.now) }
{
    for byte in name {
        push_byte(text, *byte)?;
    }
    Ok(())
}

// Appends a string (RFC 8941, section 3.3.3).
fn push_string(text: &mut Vec<u8>, name: &[u8]) -> Result<(), AllocError>
    ensures { OnOk result (text.new.items ≡ text.old.items ++ quoted name.now) }
{
    text.push(b'"')?;
    push_escaped(text, name)?;
    text.push(b'"')?;
    Ok(())
}

/// The field line of Cache-Status that says what the pass comes to, by a cache of this name. Rejected if the name isn't
/// visible ASCII and spaces.
pub fn status_line(alloc: Global, stepped: &Stepped, name: &[u8]) -> Result<Vec<u8>, Failure>
    ensures { IsStatusLine name.now stepped.now result }
{
    if !are_shown(name) {
        return Err(Failure::Refused);
    }
    let mut text = Vec::new(alloc);
    text.extend_from_slice(b"cache-status: ")?;
    push_string(&mut text, name)?;
    push_parameters(alloc, &mut text, &stepped.standing, stepped.pass.phase())?;
    text.push(b'\n')?;
    Ok(text)
}
