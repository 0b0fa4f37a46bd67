//! What is told of an answer.
ghost use Rattle.std.specs.Prelude.{◌≡◌, IfOk, map};
ghost use Rattle.c_decisions.specs.Selection.{range_of};
ghost use Rattle.c_resource.specs.Shown.{IsTold, parts_of, place_of, plan_number};
ghost use Rattle.c_resource.specs.Shown.{reason_number, sends_number, status_number};

use c_decisions::{BytesRange, flag_of, parts_sent};
use decide_preconditions::Plan;
use decide_resource::{Answer, Reason, Sends};
use http::StatusCode;
use std::alloc::{AllocError, Global};

/// What an answer is.
#[repr(C)]
#[derive(Clone, Copy)]
pub struct AnswerFacts {
    /// The place of the representation that it is about, if `has_place`; else 0.
    pub place: usize,
    /// The status, or 0 if the server performs the method.
    pub status: u16,
    /// Why it is this answer: 0 if nothing prevents the method, else the number of the reason.
    pub reason: u8,
    /// What is sent: 0 for nothing of the resource, 1 for a list of its representations, 2 for all of
    /// the representation, 3 for parts of it, 4 for what comes of the method.
    pub sends: u8,
    /// 1 if it is about a representation, else 0.
    pub has_place: u8,
}

fn reason_number(reason: Reason) -> u8
    ensures { result ≡ reason_number reason }
{
    match reason {
        Reason::Admitted => 0,
        Reason::InvalidHost => 1,
        Reason::Misdirected => 2,
        Reason::UnknownMethod => 3,
        Reason::MethodNotAllowed => 4,
        Reason::Options => 5,
        Reason::UnmetExpectation => 6,
        Reason::Moved => 7,
        Reason::Gone => 8,
        Reason::NotFound => 9,
        Reason::LengthRequired => 10,
        Reason::ContentTooLarge => 11,
        Reason::UnsupportedMediaType => 12,
        Reason::UnsupportedCoding => 13,
        Reason::NotAcceptable => 14,
        Reason::PreconditionRequired => 15,
        Reason::PartialContent => 16,
        Reason::Preflight => 17,
        Reason::Denied => 18,
    }
}

fn plan_number(plan: &Plan) -> u8
    ensures { result ≡ plan_number plan.now }
{
    match plan {
        Plan::NotModified | Plan::Failed | Plan::Unsatisfiable => 0,
        Plan::Full => 2,
        Plan::Single(_) | Plan::Multiple(_) => 3,
    }
}

fn sends_number(sends: &Sends) -> u8
    ensures { result ≡ sends_number sends.now }
{
    match sends {
        Sends::Nothing => 0,
        Sends::Alternatives => 1,
        Sends::Planned(_, plan) => plan_number(plan),
        Sends::Perform => 4,
    }
}

fn status_number(status: Option<StatusCode>) -> u16
    ensures { result ≡ status_number status }
{
    match status {
        Some(status) => status.as_u16(),
        None => 0,
    }
}

// The place of the representation that an answer is about.
fn place_of(sends: &Sends) -> Option<usize>
    ensures { result ≡ place_of sends.now }
{
    match sends {
        Sends::Planned(place, _) => *place,
        Sends::Nothing | Sends::Alternatives | Sends::Perform => None,
    }
}

/// What an answer is.
pub(crate) fn facts_of(answer: &Answer) -> AnswerFacts
    ensures { IsTold answer.now result }
{
    let place = place_of(&answer.sends);
    AnswerFacts {
        place: place.unwrap_or(0),
        status: status_number(answer.status),
        reason: reason_number(answer.reason),
        sends: sends_number(&answer.sends),
        has_place: flag_of(place.is_some()),
    }
}

/// The ranges that an answer sends, if it sends not all.
pub(crate) fn parts_of(alloc: Global, sends: &Sends) -> Result<Vec<BytesRange>, AllocError>
    ensures { IfOk result (λ parts. parts.items ≡ map range_of (parts_of sends.now)) }
{
    match sends {
        Sends::Planned(_, plan) => parts_sent(alloc, plan),
        Sends::Nothing | Sends::Alternatives | Sends::Perform => Ok(Vec::new(alloc)),
    }
}
