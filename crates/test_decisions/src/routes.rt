//! Answers by the path of a request, and the stage of a reason.
use crate::resources::{resource_named, routes};
use crate::store::method;
use decide_preconditions::Plan;
use decide_resource::{Answer as Made, Denied, Reason, RequestContent, ResourceRequest, Sends};
use decide_routes::RoutedRequest;
use gateway_messages::Protocol;
use headers::{HeaderMap, HeaderValue, set_all};
use http::Method;
use test_rows::{Arguments, Calls, CaseAnswer, CaseFailure};

/// The time of test cases: the start of 2026.
const PRESENT: u64 = 1_767_225_600;

/// The calls of routes.
pub struct Routing;

// Why, the status, what is sent, and the fields of a response that had these.
fn add_outcome(made: Made, mut map: HeaderMap, answer: &mut CaseAnswer) -> Result<(), CaseFailure> {
    let reason = made.reason;
    answer.word(format_args!("{reason:?}"))?;
    answer.option(made.status.map(|status| status.as_u16()))?;
    match made.sends {
        Sends::Nothing => answer.word("nothing")?,
        Sends::Planned(Some(place), Plan::Full) => answer.word(format_args!("{place} whole"))?,
        Sends::Planned(Some(place), Plan::Single(_)) => answer.word(format_args!("{place} part"))?,
        _ => return Err(CaseFailure::NoCall),
    }
    set_all(&mut map, made.fields).map_err(|_| CaseFailure::Memory)?;
    answer.map(&map)
}

// A request of HTTP/1.1 without content, which the server may deny.
fn plain_head<'a>(
    method: &'a Method,
    fields: &'a HeaderMap,
    denied: Option<&'a Denied>,
) -> ResourceRequest<'a> {
    let authority = None;
    ResourceRequest {
        protocol: Protocol::Http11,
        method,
        authority,
        content: RequestContent::Absent,
        fields,
        denied,
    }
}

fn asked_by<'a>(
    path: &'a str,
    method: &'a Method,
    fields: &'a HeaderMap,
    denied: Option<&'a Denied>,
) -> RoutedRequest<'a> {
    let request = plain_head(method, fields, denied);
    RoutedRequest {
        path,
        request,
        present: PRESENT,
    }
}

// `route PATH METHOD FIELDS`: the reason, the status or `(none)`, what is sent, and the fields, for a request of
// HTTP/1.1 without content by its path, among the routes of `resources.rt`.
fn call_route(arguments: &mut Arguments<'_>, answer: &mut CaseAnswer) -> Result<(), CaseFailure> {
    let set = HeaderMap::new(arguments.alloc());
    answer_route(arguments, answer, None, set)
}

// `route_over SET (/) PATH METHOD FIELDS`: the same for a response that had the fields SET.
fn call_route_over(
    arguments: &mut Arguments<'_>,
    answer: &mut CaseAnswer,
) -> Result<(), CaseFailure> {
    let set = arguments.map()?;
    answer_route(arguments, answer, None, set)
}

// Why the server denies a request, by its status.
fn denied_by(status: &str) -> Result<Denied, CaseFailure> {
    Ok(match status {
        "401" => Denied::Unauthenticated(HeaderValue::from_static("Basic realm=\"a\"")),
        "403" => Denied::Forbidden,
        "429" => Denied::TooManyRequests(Some(120)),
        "503" => Denied::Unavailable(None),
        _ => return Err(CaseFailure::NoCall),
    })
}

// `denied STATUS PATH METHOD FIELDS`: the same for a request that the server denies: by 401 with the challenge `Basic
// realm="a"`, by 403, by 429 for 120 seconds, or by 503.
fn call_denied(arguments: &mut Arguments<'_>, answer: &mut CaseAnswer) -> Result<(), CaseFailure> {
    let denied = denied_by(arguments.word()?)?;
    let set = HeaderMap::new(arguments.alloc());
    answer_route(arguments, answer, Some(denied), set)
}

fn answer_route(
    arguments: &mut Arguments<'_>,
    answer: &mut CaseAnswer,
    denied: Option<Denied>,
    set: HeaderMap,
) -> Result<(), CaseFailure> {
    let alloc = arguments.alloc();
    let path = arguments.word()?;
    let method = method(arguments)?;
    let fields = arguments.map()?;
    let asked = asked_by(path, &method, &fields, denied.as_ref());
    let made = routes(alloc)?.answer_at(alloc, &asked, |name, _| resource_named(alloc, name))?;
    add_outcome(made, set, answer)
}

macro_rules! reason_named {
    ($word:expr, $($reason:ident)+) => {
        match $word {
            $(stringify!($reason) => Ok(Reason::$reason),)+
            _ => Err(CaseFailure::NoCall),
        }
    };
}

fn read_reason(arguments: &mut Arguments<'_>) -> Result<Reason, CaseFailure> {
    reason_named!(arguments.word()?,
        InvalidHost Misdirected Preflight Denied UnknownMethod MethodNotAllowed Options UnmetExpectation
        PartialContent Moved Gone NotFound LengthRequired ContentTooLarge UnsupportedMediaType
        UnsupportedCoding NotAcceptable PreconditionRequired Admitted)
}

impl Calls for Routing {
    fn make(
        name: &str,
        arguments: &mut Arguments<'_>,
        answer: &mut CaseAnswer,
    ) -> Result<(), CaseFailure> {
        match name {
            "route" => call_route(arguments, answer),
            "route_over" => call_route_over(arguments, answer),
            "denied" => call_denied(arguments, answer),
            // `stage REASON`: its stage.
            "stage" => Ok(answer.word(read_reason(arguments)?.stage())?),
            _ => Err(CaseFailure::NoCall),
        }
    }
}
