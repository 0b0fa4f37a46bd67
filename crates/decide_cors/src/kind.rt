//! The kinds of requests.
ghost use Rattle.std.specs.{Prelude.◌≡◌, Bool.MatchBool};
ghost use Rattle.headers.specs.LineMap.{lines_at};
ghost use Rattle.decide_cors.specs.Kinds.{is_preflight, AsksLeave, IsKindOf};

use headers::HeaderMap;
use http::Method;
use http_header::{ACCESS_CONTROL_REQUEST_METHOD, ORIGIN};
use rfc_fields::has_line;

/// The kind of a request: a preflight, another cross-origin request, or one without `Origin`.
#[derive(Clone, Copy, Debug, PartialEq, Eq)]
pub enum CorsKind {
    /// A preflight, which asks whether another request may be sent: OPTIONS with `Origin` and
    /// `Access-Control-Request-Method`.
    Preflight,
    /// Any other request with an `Origin`.
    Plain,
    /// A request without an `Origin`.
    NoOrigin,
}

impl CorsKind {
    pub(crate) fn is_preflight(self) -> bool
        ensures { result ≡ is_preflight self }
    {
        match self {
            CorsKind::Preflight => true,
            CorsKind::Plain | CorsKind::NoOrigin => false,
        }
    }
}

pub(crate) fn kind_of(method: &Method, request: &HeaderMap) -> CorsKind
    ensures { IsKindOf method.now (lines_at request.now) result }
{
    if !has_line(&request.get_all(ORIGIN)) {
        return CorsKind::NoOrigin;
    }
    if asks_leave(method, request) {
        CorsKind::Preflight
    } else {
        CorsKind::Plain
    }
}

fn asks_leave(method: &Method, request: &HeaderMap) -> bool
    ensures { MatchBool result (AsksLeave method.now (lines_at request.now))
        (¬ (AsksLeave method.now (lines_at request.now))) }
{
    *method == Method::OPTIONS && has_line(&request.get_all(ACCESS_CONTROL_REQUEST_METHOD))
}
